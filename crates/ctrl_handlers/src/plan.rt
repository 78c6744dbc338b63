ghost use Rattle.std.specs.Prelude.{◌≡◌, ◌<◌, ◌≤◌, ℕ, false, None, Some, length, IfSome, IsTrue, ◌↔◌, MatchOption, MatchResult};
ghost use Rattle.std.specs.List.{All};
ghost use Rattle.ctrl_types.specs.declared.errno.Errno.TheVariants.{EINVAL};
ghost use Rattle.ctrl_handlers.specs.Plan.{IsPlan, IsFinished, control as control_of, menu_item, cluster_of, cluster_at, calls_of, no_calls, members, names_twice, plan_flags};
ghost use Rattle.ctrl_calls.specs.declared.row.TheConstants.{MAX_MEMBERS};
ghost use Rattle.range_followers.specs.Wanted.{follower_of as first_follower};
ghost use Rattle.ctrl_handlers.specs.Visible.{visible, find as find_in, next_id};

use crate::limits::{MAX_CONTROLS, MAX_HANDLERS};
use crate::numbers::NumberList;
use crate::outline::Outline;
use ctrl_calls::{Calls, Driver, Notifier, Validator};
use ctrl_settle::Ctrl;
use ctrl_types::{CtrlId, Errno, Flags};
use id_index::IdIndex;
use menu_items::MenuItem;
use range_followers::{Follower, follower_of};
use reach_table::ReachTable;
use std::marker::Model;

/// What a device is built of: its controls, its handlers, the items of its menus and its clusters, with the driver's closures
/// (Linux driver API, "V4L2 Controls"). Contracts see it as plain data, where a closure is the relation that it answers by.
/// None of its calls takes memory.
pub struct Plan<D: Driver> {
    outline: Outline,
    // the closures of each cluster that was named
    calls: Vec<Calls<D>>,
    // what each handler shows
    shown: Vec<NumberList>,
    // an index of it by id, for each handler
    index: Vec<IdIndex>,
    // the cluster of each control
    clusters: Vec<u32>,
    // the others that a change reaches on from each cluster
    reach: ReachTable,
}

impl<D: Driver> Model for Plan<D> {
    ghost use Rattle.std.specs.Prelude.{◌≡◌, length};
    ghost use Rattle.ctrl_handlers.specs.Plan.{PlanData, IsFinished, HasCalls, HasClusterTable, HasReach};
    ghost use Rattle.ctrl_handlers.specs.Visible.{shown_below, AreIndexed};

    ghost Value = { PlanData };

    ghost view = { λ p. p.outline };

    ghost invariant = { λ p. IsFinished p.outline × HasCalls p.outline p.calls.items × (p.shown.items ≡ shown_below p.outline (length p.outline.handlers)) × AreIndexed p.outline.controls p.shown.items p.index.items × HasClusterTable p.outline p.clusters.items × HasReach p.outline p.reach };
}

impl<D: Driver> Drop for Plan<D> {
    fn drop(self) {
        let Plan {
            outline: _,
            calls: _,
            shown: _,
            index: _,
            clusters: _,
            reach: _,
        } = self;
    }
}

impl<D: Driver> Plan<D> {
    ghost use Rattle.ctrl_handlers.specs.Plan.{HasCalls, HasClusterTable, HasReach, reached_from};
    ghost use Rattle.ctrl_handlers.specs.Visible.{shown_below, AreIndexed};

    /// The plan of these parts.
    pub(crate) fn of_parts(
        outline: Outline,
        calls: Vec<Calls<D>>,
        shown: Vec<NumberList>,
        index: Vec<IdIndex>,
        clusters: Vec<u32>,
        reach: ReachTable,
    ) -> Plan<D>
        requires finished { IsFinished outline }
        requires calls { HasCalls outline calls.items }
        requires shown { shown.items ≡ shown_below outline (length outline.handlers) }
        requires index { AreIndexed outline.controls shown.items index.items }
        requires clusters { HasClusterTable outline clusters.items }
        requires reach { HasReach outline reach }
        ensures { result ≡ outline }
    {
        Plan {
            outline,
            calls,
            shown,
            index,
            clusters,
            reach,
        }
    }

    /// The control that a handler shows under an id, by its number (Linux driver API, `v4l2_ctrl_find`). DISABLED controls are
    /// found too. No other control that it shows has this id (`laws::shown_controls`).
    ///
    /// - `handler`: the number of a handler, 0 to 15.
    /// - `id`: any id.
    ///
    /// Refused by check 15 of docs/RULES.md (EINVAL, 22), also where there is no such handler.
    pub fn find(&self, handler: u32, id: CtrlId) -> Result<u32, Errno>
        ensures found { MatchResult result (λ c. find_in self.now handler id ≡ Some c) (λ e. (find_in self.now handler id ≡ None) × (e ≡ EINVAL)) }
        ensures known { MatchResult result (λ c. c < length self.now.controls) (λ _. Unit {0}) }
    {
        let Some(index) = self.index.get(handler as usize) else {
            return Err(Errno::EINVAL);
        };
        match index.find(id.0) {
            Some(control) => Ok(control),
            None => Err(Errno::EINVAL),
        }
    }

    /// The least id that a handler shows and that is greater than `id` (Linux userspace API, "ioctls VIDIOC_QUERYCTRL,
    /// VIDIOC_QUERY_EXT_CTRL and VIDIOC_QUERYMENU", `V4L2_CTRL_FLAG_NEXT_CTRL`). DISABLED controls count too.
    ///
    /// - `handler`: the number of a handler, 0 to 15.
    /// - `id`: any id, shown or not.
    ///
    /// Refused by check 16 of docs/RULES.md (EINVAL, 22), also where there is no such handler.
    pub fn next_id(&self, handler: u32, id: CtrlId) -> Result<CtrlId, Errno>
        ensures { MatchResult result (λ next. next_id self.now handler id ≡ Some next) (λ e. (next_id self.now handler id ≡ None) × (e ≡ EINVAL)) }
    {
        let Some(ids) = self.index.get(handler as usize) else {
            return Err(Errno::EINVAL);
        };
        match ids.next(id.0) {
            Some(next) => Ok(CtrlId(next)),
            None => Err(Errno::EINVAL),
        }
    }

    /// The item of a menu at an index (Linux userspace API, `VIDIOC_QUERYMENU`): a name of 0 to 32 bytes, or a number.
    ///
    /// - `control`: the number of a control, 0 to 255.
    /// - `index`: the place of an item.
    ///
    /// Refused by check 17 of docs/RULES.md (EINVAL, 22), also where there is no such control. The range is the one that the control was built with; that
    /// the index lies in the range of the moment is for the device to see.
    pub fn menu_item(&self, control: u32, index: u32) -> Result<&MenuItem, Errno>
        ensures { MatchResult result (λ item. menu_item self.now control index ≡ Some item.now) (λ e. (menu_item self.now control index ≡ None) × (e ≡ EINVAL)) }
    {
        match self.outline.item(control, index) {
            Some(item) => Ok(item),
            None => Err(Errno::EINVAL),
        }
    }

    /// The controls that a handler shows, by their numbers: its own in the order of declaration, and then those that each
    /// handler that it adds shows, in the order of adding, but for private ones and those whose id is shown already. A handler
    /// that isn't there shows none.
    pub fn shown(&self, handler: u32) -> &[u32]
        ensures shown { result.now ≡ visible self.now handler }
        ensures known { All (λ c. c < length self.now.controls) result.now }
    {
        if !self.has_handler(handler) {
            return &[];
        }
        let list = &self.shown[handler as usize];
        list.as_slice()
    }

    /// The controls, by number; at most 256.
    pub fn controls(&self) -> &[Ctrl]
        ensures controls { result.now ≡ self.now.controls }
        ensures within { length result.now ≤ MAX_CONTROLS }
        ensures plan { IsPlan self.now }
        ensures finished { IsFinished self.now }
    {
        self.outline.controls()
    }

    /// The control with a number. The caller owes a number below `control_count`.
    pub fn control(&self, number: u32) -> Ctrl
        requires { number < length self.now.controls }
        ensures control { result ≡ control_of self.now number }
        ensures plan { IsPlan self.now }
        ensures finished { IsFinished self.now }
    {
        self.outline.control(number)
    }

    /// How many controls there are, at most 256.
    pub fn control_count(&self) -> u32
        ensures count { result ≡ length self.now.controls }
        ensures within { result ≤ MAX_CONTROLS }
    {
        self.outline.control_count()
    }

    /// How many handlers there are, at most 16.
    pub fn handler_count(&self) -> u32
        ensures count { result ≡ length self.now.handlers }
        ensures within { result ≤ MAX_HANDLERS }
    {
        self.outline.handler_count()
    }

    /// Whether there is a handler of this number.
    pub fn has_handler(&self, number: u32) -> bool
        ensures there { IsTrue result ↔ (number < length self.now.handlers) }
        ensures plan { IsPlan self.now }
    {
        self.outline.has_handler(number)
    }

    /// How many clusters there are, at most as many as controls (Linux driver API, "V4L2 Controls", "Control Clusters"). Those
    /// that cluster calls named come first, in the order of the calls, and then each other control is a cluster of its own, in the
    /// order of the controls.
    pub fn cluster_count(&self) -> u32
        ensures count { result ≡ length self.now.clusters }
        ensures within { result ≤ length self.now.controls }
    {
        self.outline.cluster_count()
    }

    /// The cluster that a control is in, by its number. The caller owes a control's number, below `control_count`.
    pub fn cluster_of(&self, control: u32) -> u32
        requires { control < length self.now.controls }
        ensures cluster { cluster_of self.now control ≡ Some result }
        ensures within { result < length self.now.clusters }
    {
        self.clusters[control as usize]
    }

    /// A cluster's members, 1 to 8 of them, by their numbers; the first is its master. None stands there twice. The caller owes
    /// a cluster's number, below `cluster_count`.
    pub fn members(&self, cluster: u32) -> &[u32]
        requires { cluster < length self.now.clusters }
        ensures members { result.now ≡ members self.now cluster }
        ensures known { All (λ c. c < length self.now.controls) result.now }
        ensures some { 0 < length result.now }
        ensures few { length result.now ≤ MAX_MEMBERS }
        ensures differ { names_twice result.now ≡ false }
        ensures plan { IsPlan self.now }
    {
        self.outline.members(cluster)
    }

    /// The manual value of a cluster's master, where it is an auto cluster (Linux driver API, "V4L2 Controls", "Handling
    /// autogain/gain-type Controls with Auto Clusters"). The caller owes a cluster's number, below `cluster_count`.
    pub fn manual(&self, cluster: u32) -> Option<i64>
        requires { cluster < length self.now.clusters }
        ensures { result ≡ (cluster_at self.now cluster).manual }
    {
        self.outline.manual(cluster)
    }

    /// How ranges follow other controls, in the order of the builder's calls (of this project).
    pub fn followers(&self) -> &[Follower]
        ensures { result.now ≡ self.now.followers }
    {
        self.outline.followers()
    }

    /// How a control follows others, where it does (of this project).
    ///
    /// - `control`: any number.
    pub fn follower(&self, control: u32) -> Option<Follower>
        ensures { result ≡ first_follower self.now.followers control }
    {
        follower_of(self.followers(), control)
    }

    /// The other clusters that a change reaches on from a cluster, in rising order: on and on, each with a member that follows a member of the cluster, or of one that
    /// is reached (of this project). The caller owes a cluster's number, below `cluster_count`.
    pub fn reached(&self, cluster: u32) -> &[u32]
        requires { cluster < length self.now.clusters }
        ensures { result.now ≡ reached_from self.now cluster }
    {
        self.reach.others(cluster)
    }

    /// The flags that a control has by the plan: those that it was described with, and UPDATE where it is the master of an auto
    /// cluster. The caller owes a control's number, below `control_count`.
    pub fn flags(&self, number: u32) -> Flags
        requires { number < length self.now.controls }
        ensures { result ≡ plan_flags self.now number }
    {
        self.outline.flags(number, self.cluster_of(number))
    }

    /// The validator of a cluster, where it has one. There is none where there is no such cluster.
    pub fn validator(&self, cluster: u32) -> Option<&Validator<D>>
        ensures { MatchOption result ((calls_of self.now cluster).validator ≡ None) (λ v. (calls_of self.now cluster).validator ≡ Some v.now) }
    {
        let calls = self.calls_of(cluster)?;
        calls.validator.as_ref()
    }

    /// The notifier of a cluster, where it has one. There is none where there is no such cluster.
    pub fn notifier(&self, cluster: u32) -> Option<&Notifier<D>>
        ensures { MatchOption result ((calls_of self.now cluster).notifier ≡ None) (λ n. (calls_of self.now cluster).notifier ≡ Some n.now) }
    {
        let calls = self.calls_of(cluster)?;
        calls.notifier.as_ref()
    }

    // The closures of a cluster that was named.
    fn calls_of(&self, cluster: u32) -> Option<&Calls<D>>
        ensures { MatchOption result (calls_of self.now cluster ≡ no_calls) (λ c. calls_of self.now cluster ≡ c.now) }
    {
        self.calls.get(cluster as usize)
    }
}
