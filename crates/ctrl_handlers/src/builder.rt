ghost use Rattle.std.specs.Prelude.{◌≡◌, ◌<◌, ◌≤◌, [], true, length, take, vec_capacity, None, Some, IfOk, IfErr, MatchResult};
ghost use Rattle.ctrl_handlers.specs.Plan.{IsFinished, IsPlan, HasCalls, HasClusterTable, all_calls, no_plan, with_handler, with_control, with_added, with_item, with_cluster, with_follower, finished, control as control_of};
ghost use Rattle.ctrl_handlers.specs.Builder.{handler_refusal, control_refusal, adding_refusal, name_refusal, number_refusal, cluster_refusal, follow_refusal, IsRefusedBy};
ghost use Rattle.menu_items.specs.Places.{takes};
ghost use Rattle.ctrl_handlers.specs.Visible.{shown_below, AreIndexed};
ghost use Rattle.menu_items.specs.declared.item.MenuItem.TheVariants as items;
ghost use Rattle.ctrl_handlers.specs.declared.fault.PlanFault.TheVariants.{Memory};

use crate::fault::PlanFault;
use crate::limits::MAX_HANDLERS;
use crate::numbers::NumberList;
use crate::outline::Outline;
use crate::plan::Plan;
use crate::showing::indexes;
use ctrl_calls::{Calls, Driver};
use ctrl_settle::Ctrl;
use id_index::IdIndex;
use menu_items::{MenuItem, MenuName};
use range_followers::Follower;
use std::alloc::Global;
use std::marker::Model;

/// Builds a plan, call by call (Linux driver API, "V4L2 Controls", `v4l2_ctrl_handler_init`, `v4l2_ctrl_new_custom`,
/// `v4l2_ctrl_add_handler` and `v4l2_ctrl_cluster`). Contracts see it as the plan so far.
pub struct PlanBuilder<D: Driver> {
    outline: Outline,
    // the closures of each named cluster
    calls: Vec<Calls<D>>,
    alloc: Global,
}

impl<D: Driver> Model for PlanBuilder<D> {
    ghost use Rattle.std.specs.Prelude.{◌≡◌};
    ghost use Rattle.ctrl_handlers.specs.Plan.{PlanData, all_calls};

    ghost Value = { PlanData };

    ghost view = { λ b. b.outline };

    ghost invariant = { λ b. b.calls.items ≡ all_calls b.outline };
}

impl<D: Driver> Drop for PlanBuilder<D> {
    fn drop(self) {
        let PlanBuilder {
            outline: _,
            calls: _,
            alloc: _,
        } = self;
    }
}

impl<D: Driver> PlanBuilder<D> {
    /// A builder of a plan without handlers. It takes no memory; its calls take theirs from `alloc`.
    pub fn new(alloc: Global) -> PlanBuilder<D>
        ensures { result ≡ no_plan }
    {
        PlanBuilder {
            outline: Outline::empty(alloc),
            calls: Vec::new(alloc),
            alloc,
        }
    }

    /// Adds a handler and answers its number, from 0. Refused by the checks 39, `Limit` (6), and 49, `Memory` (7), of docs/RULES.md; a refusal
    /// leaves the plan as it was.
    pub fn handler(&mut self) -> Result<u32, PlanFault>
        ensures ok { IfOk result (λ n. (handler_refusal self.old ≡ None) × (n ≡ length self.old.handlers) × (self.new ≡ with_handler self.old)) }
        ensures err { IfErr result (λ fault. IsRefusedBy (handler_refusal self.old) fault × (self.new ≡ self.old)) }
    {
        if self.outline.handler_count() >= MAX_HANDLERS {
            return Err(PlanFault::Limit);
        }
        match self.outline.add_handler(self.alloc) {
            Ok(number) => Ok(number),
            Err(_) => Err(PlanFault::Memory),
        }
    }

    /// Adds a control to a handler's own, the last, and answers its number, from 0 in the order of these calls.
    ///
    /// - `handler`: the number of a handler, 0 to 15.
    /// - `ctrl`: the control, of an id that the handler's own don't have yet.
    ///
    /// Refused by the checks 40, `UnknownNumber` (5), 41, `Limit` (6), 42, `DuplicateId` (1), and 49, `Memory` (7), of docs/RULES.md, in this
    /// order; a refusal leaves the plan as it was.
    pub fn control(&mut self, handler: u32, ctrl: Ctrl) -> Result<u32, PlanFault>
        ensures ok { IfOk result (λ n. (control_refusal self.old handler ctrl ≡ None) × (n ≡ length self.old.controls) × (self.new ≡ with_control self.old handler ctrl)) }
        ensures err { IfErr result (λ fault. IsRefusedBy (control_refusal self.old handler ctrl) fault × (self.new ≡ self.old)) }
    {
        if let Some(fault) = self.outline.control_refusal(handler, ctrl) {
            return Err(fault);
        }
        match self.outline.add_control(handler, ctrl) {
            Ok(number) => Ok(number),
            Err(_) => Err(PlanFault::Memory),
        }
    }

    /// The controls so far, by number; at most 256.
    pub fn controls(&self) -> &[Ctrl]
        ensures { result.now ≡ self.now.controls }
    {
        self.outline.controls()
    }

    /// Has handler `to` show what handler `added` shows, too, after all of its own controls and after the handlers that it added before
    /// (Linux driver API, "V4L2 Controls", "Inheriting Controls"). Controls that either is given later have their places likewise. Adding
    /// again does nothing.
    ///
    /// Refused by the checks 40, `UnknownNumber` (5), 43, `LaterHandler` (4), and 49, `Memory` (7), of docs/RULES.md, in this order; a refusal
    /// leaves the plan as it was.
    pub fn add_handler(&mut self, to: u32, added: u32) -> Result<(), PlanFault>
        ensures ok { IfOk result (λ _. (adding_refusal self.old to added ≡ None) × (self.new ≡ with_added self.old to added)) }
        ensures err { IfErr result (λ fault. IsRefusedBy (adding_refusal self.old to added) fault × (self.new ≡ self.old)) }
    {
        if let Some(fault) = self.outline.adding_refusal(to, added) {
            return Err(fault);
        }
        match self.outline.add_to(to, added) {
            Ok(()) => Ok(()),
            Err(_) => Err(PlanFault::Memory),
        }
    }

    /// Names the item of a `Menu` at an index; a second name takes the place of the first (Linux driver API, "V4L2 Controls",
    /// "Menu Controls").
    ///
    /// - `control`: the number of a control, 0 to 255.
    /// - `index`: the place of an item, from the control's minimum to its maximum, and not skipped.
    /// - `name`: 0 to 32 bytes; it is copied.
    ///
    /// Refused by the checks 44, `UnknownNumber` (5), 45, `Limit` (6), and 49, `Memory` (7), of docs/RULES.md, in this order; a refusal leaves the
    /// plan as it was.
    pub fn menu_name(&mut self, control: u32, index: u32, name: &str) -> Result<(), PlanFault>
        ensures ok { IfOk result (λ _. (name_refusal self.old control index name.now ≡ None) × (self.new ≡ with_item self.old control index (items.Name name.now))) }
        ensures err { IfErr result (λ fault. IsRefusedBy (name_refusal self.old control index name.now) fault × (self.new ≡ self.old)) }
    {
        if let Some(fault) = self.outline.name_refusal(control, index, name) {
            return Err(fault);
        }
        match MenuName::new(self.alloc, name) {
            Ok(name) => self.set_item(control, index, MenuItem::Name(name)),
            Err(_) => Err(PlanFault::Memory),
        }
    }

    /// Gives an `IntegerMenu` the number that stands at an index; a second number takes the place of the first (Linux driver
    /// API, "V4L2 Controls", "Menu Controls").
    ///
    /// - `control`, `index`: as of `menu_name`.
    /// - `number`: any number.
    ///
    /// Refused by the checks 44, `UnknownNumber` (5), and 49, `Memory` (7), of docs/RULES.md, in this order; a refusal leaves the plan as it was.
    pub fn menu_number(&mut self, control: u32, index: u32, number: i64) -> Result<(), PlanFault>
        ensures ok { IfOk result (λ _. (number_refusal self.old control index ≡ None) × (self.new ≡ with_item self.old control index (items.Number number))) }
        ensures err { IfErr result (λ fault. IsRefusedBy (number_refusal self.old control index) fault × (self.new ≡ self.old)) }
    {
        if let Some(fault) = self.outline.number_refusal(control, index) {
            return Err(fault);
        }
        self.set_item(control, index, MenuItem::Number(number))
    }

    // Gives a menu an item that it takes.
    fn set_item(&mut self, control: u32, index: u32, item: MenuItem) -> Result<(), PlanFault>
        requires known { control < length self.old.controls }
        requires takes { takes item (control_of self.old control) index ≡ true }
        ensures { MatchResult result (λ _. self.new ≡ with_item self.old control index item) (λ fault. (fault ≡ Memory) × (self.new ≡ self.old)) }
    {
        match self.outline.set_item(control, index, item) {
            Ok(()) => Ok(()),
            Err(_) => Err(PlanFault::Memory),
        }
    }

    /// Has the range of a control follow the values of others (Linux driver API, `v4l2_ctrl_modify_range`, which a driver calls where it sets what is followed). From
    /// here on the control has the range that it is wanted to have under the defaults of all. The plan says how ranges follow and starts so; to move one where what it
    /// follows is set is up to the driver, by the range change that `following_ranges` asks for.
    ///
    /// - `follower`: an integer or an integer64 by its number, 0 to 255, and which of its minimum, its maximum and its default follow the value of another integer or
    ///   integer64, with a number that is added. What is followed has a lower number and follows nothing itself, the control isn't followed and follows only once, and
    ///   something is followed.
    ///
    /// Refused by the checks 58, `UnknownNumber` (5), 59, `CannotFollow` (9), and 49, `Memory` (7), of docs/RULES.md, in this order; a refusal leaves the plan as it
    /// was.
    pub fn follow(&mut self, follower: &Follower) -> Result<(), PlanFault>
        ensures ok { IfOk result (λ _. (follow_refusal self.old follower.now ≡ None) × (self.new ≡ with_follower self.old follower.now)) }
        ensures err { IfErr result (λ fault. IsRefusedBy (follow_refusal self.old follower.now) fault × (self.new ≡ self.old)) }
    {
        if let Some(fault) = self.outline.follow_refusal(follower) {
            return Err(fault);
        }
        match self.outline.add_follower(self.alloc, follower) {
            Ok(()) => Ok(()),
            Err(_) => Err(PlanFault::Memory),
        }
    }

    /// Makes a cluster, and answers its number, from 0 in the order of the cluster calls (Linux driver API, "V4L2 Controls",
    /// "Control Clusters"). A control that no call names is a cluster of its own without closures, once the plan is finished.
    ///
    /// - `members`: the numbers of 1 to 8 controls, each 0 to 255; the first is the master.
    /// - `calls`: the driver's closures for the cluster, each where it has one.
    ///
    /// Refused by the checks 46, `ClusterSize` (3), 47, `UnknownNumber` (5), 48, `InCluster` (2), 56, `ArrayAlone` (8), and 49, `Memory` (7), of docs/RULES.md, in this
    /// order; a refusal hands the closures back and leaves the plan as it was.
    pub fn cluster(
        &mut self,
        members: &[u32],
        calls: Calls<D>,
    ) -> Result<u32, (Calls<D>, PlanFault)>
        ensures ok { IfOk result (λ n. (cluster_refusal self.old members.now None ≡ None) × (n ≡ length self.old.clusters) × (self.new ≡ with_cluster self.old members.now None calls)) }
        ensures err { IfErr result (λ e. (e.0 ≡ calls) × IsRefusedBy (cluster_refusal self.old members.now None) e.1 × (self.new ≡ self.old)) }
    {
        self.any_cluster(members, None, calls)
    }

    /// Makes an auto cluster: as `cluster`, and while the value of its master isn't `manual`, its other members are INACTIVE; the
    /// master has UPDATE (Linux driver API, "V4L2 Controls", "Handling autogain/gain-type Controls with Auto Clusters").
    ///
    /// - `members`, `calls`: as of `cluster`.
    /// - `manual`: any value, also one that the master can't take; then the others are always INACTIVE (of this project).
    ///
    /// Refused as by `cluster`: the closures are handed back and the plan is as it was.
    pub fn auto_cluster(
        &mut self,
        members: &[u32],
        manual: i64,
        calls: Calls<D>,
    ) -> Result<u32, (Calls<D>, PlanFault)>
        ensures ok { IfOk result (λ n. (cluster_refusal self.old members.now (Some manual) ≡ None) × (n ≡ length self.old.clusters) × (self.new ≡ with_cluster self.old members.now (Some manual) calls)) }
        ensures err { IfErr result (λ e. (e.0 ≡ calls) × IsRefusedBy (cluster_refusal self.old members.now (Some manual)) e.1 × (self.new ≡ self.old)) }
    {
        self.any_cluster(members, Some(manual), calls)
    }

    // Makes a cluster, which is an auto cluster where it has a manual value.
    fn any_cluster(
        &mut self,
        members: &[u32],
        manual: Option<i64>,
        calls: Calls<D>,
    ) -> Result<u32, (Calls<D>, PlanFault)>
        ensures ok { IfOk result (λ n. (cluster_refusal self.old members.now manual ≡ None) × (n ≡ length self.old.clusters) × (self.new ≡ with_cluster self.old members.now manual calls)) }
        ensures err { IfErr result (λ e. (e.0 ≡ calls) × IsRefusedBy (cluster_refusal self.old members.now manual) e.1 × (self.new ≡ self.old)) }
    {
        if let Some(fault) = self.outline.cluster_refusal(members, manual) {
            return Err((calls, fault));
        }
        match self.name_cluster(members, manual, calls) {
            Ok(number) => Ok(number),
            Err(calls) => Err((calls, PlanFault::Memory)),
        }
    }

    // Names a cluster; hands its closures back where a growth was refused.
    fn name_cluster(
        &mut self,
        members: &[u32],
        manual: Option<i64>,
        calls: Calls<D>,
    ) -> Result<u32, Calls<D>>
        requires { cluster_refusal self.old members.now manual ≡ None }
        ensures ok { IfOk result (λ n. (n ≡ length self.old.clusters) × (self.new ≡ with_cluster self.old members.now manual calls)) }
        ensures err { IfErr result (λ back. (back ≡ calls) × (self.new ≡ self.old)) }
    {
        if self.calls.reserve(1).is_err() {
            return Err(calls);
        }
        match self.outline.add_cluster(members, manual, calls.relations()) {
            Ok(number) => {
                self.calls.push_reserved(calls);
                Ok(number)
            }
            Err(_) => Err(calls),
        }
    }

    /// The plan that was built. What each handler shows is made here, so it is shown whatever the order of the calls, and each
    /// control that no cluster call named becomes a cluster of its own; these are numbered after the others, in the order of the
    /// controls. Refused by the check 49 of docs/RULES.md alone, `Memory` (7), with the builder as it was.
    pub fn finish(self) -> Result<Plan<D>, (PlanBuilder<D>, PlanFault)>
        ensures ok { IfOk result (λ plan. plan ≡ finished self) }
        ensures finished { IfOk result (λ plan. IsFinished plan) }
        ensures err { IfErr result (λ e. (e.0 ≡ self) × (e.1 ≡ Memory)) }
    {
        let Ok(shown) = self.outline.shown_lists(self.alloc) else {
            return Err((self, PlanFault::Memory));
        };
        let Ok(index) = indexes(self.alloc, self.outline.controls(), shown.as_slice()) else {
            return Err((self, PlanFault::Memory));
        };
        let Ok(clusters) = Vec::with_capacity(self.alloc, self.outline.control_count() as usize)
        else {
            return Err((self, PlanFault::Memory));
        };
        self.finish_with(shown, index, clusters)
    }

    // The plan that was built, with what each handler shows, an index of it, and room for a table of clusters.
    fn finish_with(
        self,
        shown: Vec<NumberList>,
        index: Vec<IdIndex>,
        mut clusters: Vec<u32>,
    ) -> Result<Plan<D>, (PlanBuilder<D>, PlanFault)>
        requires shown { shown.items ≡ shown_below self (length self.handlers) }
        requires index { AreIndexed self.controls shown.items index.items }
        requires none { clusters.items ≡ [] }
        requires room { length self.controls ≤ vec_capacity clusters }
        ensures ok { IfOk result (λ plan. plan ≡ finished self) }
        ensures finished { IfOk result (λ plan. IsFinished plan) }
        ensures err { IfErr result (λ e. (e.0 ≡ self) × (e.1 ≡ Memory)) }
    {
        let PlanBuilder {
            mut outline,
            calls,
            alloc,
        } = self;
        let named = outline.cluster_count() as usize;
        match outline.cluster_rest() {
            Ok(()) => {
                outline.cluster_places(&mut clusters);
                Self::finish_clustered(outline, named, calls, shown, index, clusters, alloc)
            }
            Err(_) => Err((
                PlanBuilder {
                    outline,
                    calls,
                    alloc,
                },
                PlanFault::Memory,
            )),
        }
    }

    // The plan of which each control is in a cluster; where there is no room for what is reached, the builder with the clusters that were named.
    fn finish_clustered(
        mut outline: Outline,
        named: usize,
        calls: Vec<Calls<D>>,
        shown: Vec<NumberList>,
        index: Vec<IdIndex>,
        clusters: Vec<u32>,
        alloc: Global,
    ) -> Result<Plan<D>, (PlanBuilder<D>, PlanFault)>
        requires finished { IsFinished outline }
        requires named { IsPlan (record outline { clusters = take named outline.clusters }) }
        requires own { calls.items ≡ all_calls (record outline { clusters = take named outline.clusters }) }
        requires calls { HasCalls outline calls.items }
        requires shown { shown.items ≡ shown_below outline (length outline.handlers) }
        requires index { AreIndexed outline.controls shown.items index.items }
        requires clusters { HasClusterTable outline clusters.items }
        ensures ok { IfOk result (λ plan. plan ≡ outline) }
        ensures err { IfErr result (λ e. (e.0 ≡ record outline { clusters = take named outline.clusters }) × (e.1 ≡ Memory)) }
    {
        match outline.reach_table(alloc, clusters.as_slice()) {
            Ok(reach) => Ok(Plan::of_parts(outline, calls, shown, index, clusters, reach)),
            Err(_) => {
                outline.leave_clusters(named);
                Err((
                    PlanBuilder {
                        outline,
                        calls,
                        alloc,
                    },
                    PlanFault::Memory,
                ))
            }
        }
    }
}
