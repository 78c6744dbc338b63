ghost use Rattle.std.specs.Prelude.{◌≡◌, ◌==◌, ◌<◌, ◌≤◌, ◌+◌, ℕ, true, false, if◌then◌else◌, [], ◌∷◌, ◌++◌, map, length, vec_capacity, None, Some, is_some, nat_lt, take, OnOk, OnErr, MatchOption, position, IfOk, IfSome, IsTrue, ◌↔◌};
ghost use Rattle.ctrl_handlers.specs.Plan.{IsPlan, IsFinished, no_plan, with_handler, with_control, with_added, with_item, with_cluster, with_follower, finished, in_none, alone, control as control_of, control_in, own, added, menu_item, cluster_of, cluster_at, members, has_member, plan_flags, names_twice, crowds_array, HasClusterTable, HasReach};
ghost use Rattle.ctrl_handlers.specs.Builder.{control_refusal, adding_refusal, name_refusal, number_refusal, cluster_refusal, follow_refusal};
ghost use Rattle.ctrl_settle.specs.Control.{is_array};
ghost use Rattle.ctrl_settle.specs.Faults.{IsWellFormed};
ghost use Rattle.menu_items.specs.Places.{takes};
ghost use Rattle.ctrl_calls.specs.declared.row.TheConstants.{MAX_MEMBERS};
ghost use Rattle.std.specs.List.{All, list_all, list_any};
ghost use Rattle.ctrl_handlers.specs.Visible.{first_with_id, shown_over, shown_below};

use crate::cluster::Cluster;
use crate::fault::PlanFault;
use crate::following::{is_known, may_follow, wanted_at_start};
use crate::handler::Handler;
use crate::limits::{MAX_CONTROLS, MAX_HANDLERS};
use crate::numbers::NumberList;
use crate::reaching::reach_table;
use crate::showing::{bring_added, first_with_id};
use bitflags::Flags as FlagSet;
use ctrl_calls::{MAX_MEMBERS, Relations};
use ctrl_settle::Ctrl;
use ctrl_types::Flags;
use indexmap::IndexMap;
use menu_items::{MAX_MENU_NAME, MenuItem, takes_name, takes_number};
use range_followers::Follower;
use reach_table::ReachTable;
use std::alloc::{AllocError, Global};
use std::marker::Model;

/// What a plan holds but for the driver's closures.
#[derive(Drop)]
pub struct Outline {
    controls: Vec<Ctrl>,
    handlers: Vec<Handler>,
    // the items of menus, by control and index
    items: IndexMap<(u32, u32), MenuItem>,
    clusters: Vec<Cluster>,
    // how ranges follow, in the order of the calls
    followers: Vec<Follower>,
}

impl Model for Outline {
    ghost use Rattle.ctrl_handlers.specs.Plan.{PlanData, IsPlan};

    ghost Value = { PlanData };

    ghost view = { λ p. record { controls = p.controls.items; handlers = p.handlers.items; items = p.items.entries; clusters = p.clusters.items; followers = p.followers.items } };

    ghost invariant = { λ p. IsPlan (record { controls = p.controls.items; handlers = p.handlers.items; items = p.items.entries; clusters = p.clusters.items; followers = p.followers.items }) };
}

impl Outline {
    /// A plan of nothing.
    pub(crate) fn empty(alloc: Global) -> Outline
        ensures { result ≡ no_plan }
    {
        Outline {
            controls: Vec::new(alloc),
            handlers: Vec::new(alloc),
            items: IndexMap::new(alloc),
            clusters: Vec::new(alloc),
            followers: Vec::new(alloc),
        }
    }

    /// One more handler, by its number.
    pub(crate) fn add_handler(&mut self, alloc: Global) -> Result<u32, AllocError>
        requires { length self.old.handlers < MAX_HANDLERS }
        ensures ok { IfOk result (λ n. (n ≡ length self.old.handlers) × (self.new ≡ with_handler self.old)) }
        ensures err { OnErr result (self.new ≡ self.old) }
    {
        let number = self.handlers.len() as u32;
        self.handlers.push(Handler::new(alloc))?;
        Ok(number)
    }

    /// Why a control is refused, memory apart.
    pub(crate) fn control_refusal(&self, handler: u32, ctrl: Ctrl) -> Option<PlanFault>
        ensures { result ≡ control_refusal self.now handler ctrl }
    {
        if !self.has_handler(handler) {
            return Some(PlanFault::UnknownNumber);
        }
        if self.control_count() >= MAX_CONTROLS {
            return Some(PlanFault::Limit);
        }
        if first_with_id(self.controls(), self.own(handler), ctrl.id()).is_some() {
            return Some(PlanFault::DuplicateId);
        }
        None
    }

    /// One more control of a handler, by its number.
    pub(crate) fn add_control(&mut self, handler: u32, ctrl: Ctrl) -> Result<u32, AllocError>
        requires known { handler < length self.old.handlers }
        requires room { length self.old.controls < MAX_CONTROLS }
        requires well_formed { IsWellFormed ctrl }
        requires differs { is_some (first_with_id self.old.controls (own self.old handler) ctrl.id) ≡ false }
        ensures ok { IfOk result (λ n. (n ≡ length self.old.controls) × (self.new ≡ with_control self.old handler ctrl)) }
        ensures err { OnErr result (self.new ≡ self.old) }
    {
        let number = self.controls.len() as u32;
        self.controls.reserve(1)?;
        self.handlers[handler as usize].own_control(number)?;
        self.controls.push_reserved(ctrl);
        Ok(number)
    }

    /// Why a handler doesn't add another, memory apart.
    pub(crate) fn adding_refusal(&self, to: u32, added: u32) -> Option<PlanFault>
        ensures { result ≡ adding_refusal self.now to added }
    {
        if !self.has_handler(to) {
            return Some(PlanFault::UnknownNumber);
        }
        if !self.has_handler(added) {
            return Some(PlanFault::UnknownNumber);
        }
        if added >= to {
            return Some(PlanFault::LaterHandler);
        }
        None
    }

    /// Has a handler add another.
    pub(crate) fn add_to(&mut self, to: u32, added: u32) -> Result<(), AllocError>
        requires { adding_refusal self.old to added ≡ None }
        ensures ok { OnOk result (self.new ≡ with_added self.old to added) }
        ensures err { OnErr result (self.new ≡ self.old) }
    {
        self.handlers[to as usize].add_handler(added)
    }

    /// Why a name for an item of a menu is refused, memory apart.
    pub(crate) fn name_refusal(&self, control: u32, index: u32, name: &str) -> Option<PlanFault>
        ensures { result ≡ name_refusal self.now control index name.now }
    {
        if control >= self.control_count() {
            return Some(PlanFault::UnknownNumber);
        }
        let ctrl = self.control(control);
        if !takes_name(&ctrl, index) {
            return Some(PlanFault::UnknownNumber);
        }
        if name.len() > MAX_MENU_NAME {
            return Some(PlanFault::Limit);
        }
        None
    }

    /// Why a menu doesn't take a number at an index, memory apart.
    pub(crate) fn number_refusal(&self, control: u32, index: u32) -> Option<PlanFault>
        ensures { result ≡ number_refusal self.now control index }
    {
        if control >= self.control_count() {
            return Some(PlanFault::UnknownNumber);
        }
        let ctrl = self.control(control);
        if !takes_number(&ctrl, index) {
            return Some(PlanFault::UnknownNumber);
        }
        None
    }

    /// Gives a menu an item that it takes, in place of the one that it has at this index.
    pub(crate) fn set_item(
        &mut self,
        control: u32,
        index: u32,
        item: MenuItem,
    ) -> Result<(), AllocError>
        requires known { control < length self.old.controls }
        requires takes { takes item (control_of self.old control) index ≡ true }
        ensures ok { OnOk result (self.new ≡ with_item self.old control index item) }
        ensures err { OnErr result (self.new ≡ self.old) }
    {
        self.items.insert((control, index), item)?;
        Ok(())
    }

    /// Why a cluster of these controls is refused, memory apart.
    pub(crate) fn cluster_refusal(&self, members: &[u32], manual: Option<i64>) -> Option<PlanFault>
        ensures { result ≡ cluster_refusal self.now members.now manual }
    {
        if members.is_empty() || members.len() > MAX_MEMBERS {
            return Some(PlanFault::ClusterSize);
        }
        if !are_below(members, self.control_count()) {
            return Some(PlanFault::UnknownNumber);
        }
        if some_clustered(self.clusters.as_slice(), members) || names_twice(members) {
            return Some(PlanFault::InCluster);
        }
        if self.crowds_array(members, manual) {
            return Some(PlanFault::ArrayAlone);
        }
        None
    }

    // Whether an array is beside other members, or in an auto cluster.
    fn crowds_array(&self, members: &[u32], manual: Option<i64>) -> bool
        ensures { result ≡ crowds_array self.now members.now manual }
    {
        let is_shared = manual.is_some() || members.len() > 1;
        is_shared && some_array(self.controls.as_slice(), members)
    }

    /// One more cluster, by its number.
    pub(crate) fn add_cluster(
        &mut self,
        members: &[u32],
        manual: Option<i64>,
        calls: Relations,
    ) -> Result<u32, AllocError>
        requires { cluster_refusal self.old members.now manual ≡ None }
        ensures ok { IfOk result (λ n. (n ≡ length self.old.clusters) × (self.new ≡ with_cluster self.old members.now manual calls)) }
        ensures err { OnErr result (self.new ≡ self.old) }
    {
        let number = self.cluster_count();
        self.clusters.push(Cluster::new(members, manual, calls))?;
        Ok(number)
    }

    /// Gives each control that is in no cluster one of its own, in rising order.
    pub(crate) fn cluster_rest(&mut self) -> Result<(), AllocError>
        ensures ok { OnOk result ((self.new ≡ finished self.old) × IsFinished self.new) }
        ensures err { OnErr result (self.new ≡ self.old) }
    {
        let count = self.control_count();
        self.clusters.reserve(count as usize)?;
        cluster_each(&mut self.clusters, count);
        Ok(())
    }

    /// Why a control can't follow so, memory apart.
    pub(crate) fn follow_refusal(&self, follower: &Follower) -> Option<PlanFault>
        ensures { result ≡ follow_refusal self.now follower.now }
    {
        if !is_known(follower, self.control_count()) {
            return Some(PlanFault::UnknownNumber);
        }
        if !may_follow(
            self.controls.as_slice(),
            self.followers.as_slice(),
            follower,
        ) {
            return Some(PlanFault::CannotFollow);
        }
        None
    }

    /// Has a control follow others.
    pub(crate) fn add_follower(
        &mut self,
        alloc: Global,
        follower: &Follower,
    ) -> Result<(), AllocError>
        requires { follow_refusal self.old follower.now ≡ None }
        ensures ok { OnOk result (self.new ≡ with_follower self.old follower.now) }
        ensures err { OnErr result (self.new ≡ self.old) }
    {
        let wanted = wanted_at_start(alloc, self.controls.as_slice(), follower)?;
        self.followers.reserve(1)?;
        self.controls[follower.control as usize] = wanted;
        self.followers.push_reserved(*follower);
        Ok(())
    }

    /// How ranges follow, in the order of the calls.
    pub(crate) fn followers(&self) -> &[Follower]
        ensures { result.now ≡ self.now.followers }
    {
        self.followers.as_slice()
    }

    /// Leaves the first clusters alone. The caller owes that a plan with these is one.
    pub(crate) fn leave_clusters(&mut self, count: usize)
        requires { IsPlan (record self.old { clusters = take count self.old.clusters }) }
        ensures { self.new ≡ record self.old { clusters = take count self.old.clusters } }
    {
        self.clusters.truncate(count);
    }

    /// What is reached on from each cluster of a finished plan.
    ///
    /// - `places`: the cluster of each control.
    pub(crate) fn reach_table(
        &self,
        alloc: Global,
        places: &[u32],
    ) -> Result<ReachTable, AllocError>
        requires finished { IsFinished self.now }
        requires places { HasClusterTable self.now places.now }
        ensures { IfOk result (HasReach self.now) }
    {
        reach_table(
            alloc,
            self.followers.as_slice(),
            places,
            self.cluster_count(),
        )
    }

    /// The item of a menu at an index.
    pub(crate) fn item(&self, control: u32, index: u32) -> Option<&MenuItem>
        ensures { MatchOption result (menu_item self.now control index ≡ None) (λ item. menu_item self.now control index ≡ Some item.now) }
    {
        self.items.get(&(control, index))
    }

    /// Puts the cluster of each control, by its number, into a table that has room for them.
    pub(crate) fn cluster_places(&self, places: &mut Vec<u32>)
        requires finished { IsFinished self.now }
        requires none { places.old.items ≡ [] }
        requires room { length self.now.controls ≤ vec_capacity places.old }
        ensures { HasClusterTable self.now places.new.items }
    {
        for control in 0..self.control_count() {
            let place = place_of(self.clusters.as_slice(), control).unwrap();
            places.push_reserved(place as u32);
        }
    }

    /// A cluster's members, the first of which is its master.
    pub(crate) fn members(&self, cluster: u32) -> &[u32]
        requires { cluster < length self.now.clusters }
        ensures members { result.now ≡ members self.now cluster }
        ensures known { All (λ c. c < length self.now.controls) result.now }
        ensures some { 0 < length result.now }
        ensures few { length result.now ≤ MAX_MEMBERS }
        ensures differ { names_twice result.now ≡ false }
    {
        let cluster = &self.clusters[cluster as usize];
        cluster.members()
    }

    /// The manual value of an auto cluster's master.
    pub(crate) fn manual(&self, cluster: u32) -> Option<i64>
        requires { cluster < length self.now.clusters }
        ensures { result ≡ (cluster_at self.now cluster).manual }
    {
        let cluster = &self.clusters[cluster as usize];
        cluster.manual()
    }

    /// How many clusters there are: no more than controls.
    pub(crate) fn cluster_count(&self) -> u32
        ensures count { result ≡ length self.now.clusters }
        ensures within { result ≤ length self.now.controls }
        ensures plan { IsPlan self.now }
    {
        self.clusters.len() as u32
    }

    /// The flags of a control, with those of its cluster, by the number of each.
    #[tactic(auto, using(crate::proofs::ClusterLemmas::leads_own, crate::proofs::ClusterLemmas::cluster_of_within))]
    pub(crate) fn flags(&self, number: u32, cluster: u32) -> Flags
        requires known { number < length self.now.controls }
        requires own { cluster_of self.now number ≡ Some cluster }
        ensures { result ≡ plan_flags self.now number }
    {
        let flags = self.control(number).flags();
        if self.clusters[cluster as usize].leads(number) {
            flags.union(Flags::UPDATE)
        } else {
            flags
        }
    }

    // A handler's own controls.
    fn own(&self, handler: u32) -> &[u32]
        requires { handler < length self.now.handlers }
        ensures own { result.now ≡ own self.now handler }
        ensures known { All (λ c. c < length self.now.controls) result.now }
    {
        let handler = &self.handlers[handler as usize];
        handler.own()
    }

    // The handlers that a handler adds.
    fn added(&self, handler: u32) -> &[u32]
        requires { handler < length self.now.handlers }
        ensures added { result.now ≡ added self.now handler }
        ensures before { All (λ a. a < handler) result.now }
    {
        let handler = &self.handlers[handler as usize];
        handler.added()
    }

    /// What each handler shows, in the order of their numbers.
    pub(crate) fn shown_lists(&self, alloc: Global) -> Result<Vec<NumberList>, AllocError>
        ensures { IfOk result (λ lists. lists.items ≡ shown_below self.now (length self.now.handlers)) }
    {
        let count = self.handler_count();
        let mut lists = Vec::with_capacity(alloc, count as usize)?;
        for handler in 0..count {
            let list = self.shown_over(alloc, lists.as_slice(), handler)?;
            lists.push_reserved(list);
        }
        Ok(lists)
    }

    // What a handler shows, given what each with a smaller number shows.
    fn shown_over(
        &self,
        alloc: Global,
        below: &[NumberList],
        handler: u32,
    ) -> Result<NumberList, AllocError>
        requires known { handler < length self.now.handlers }
        requires below { below.now ≡ shown_below self.now handler }
        ensures { IfOk result (λ list. list ≡ shown_over self.now (shown_below self.now handler) handler) }
    {
        let mut shown = NumberList::from_slice(alloc, self.own(handler))?;
        bring_added(self.controls(), &mut shown, below, self.added(handler))?;
        Ok(shown)
    }

    /// The controls, by number.
    pub(crate) fn controls(&self) -> &[Ctrl]
        ensures controls { result.now ≡ self.now.controls }
        ensures within { length result.now ≤ MAX_CONTROLS }
        ensures plan { IsPlan self.now }
    {
        self.controls.as_slice()
    }

    /// How many handlers there are, at most 16.
    pub(crate) fn handler_count(&self) -> u32
        ensures count { result ≡ length self.now.handlers }
        ensures within { result ≤ MAX_HANDLERS }
    {
        self.handlers.len() as u32
    }

    /// Whether there is a handler of this number.
    pub(crate) fn has_handler(&self, number: u32) -> bool
        ensures there { IsTrue result ↔ (number < length self.now.handlers) }
        ensures plan { IsPlan self.now }
    {
        (number as usize) < self.handlers.len()
    }

    /// The control with a number.
    pub(crate) fn control(&self, number: u32) -> Ctrl
        requires { number < length self.now.controls }
        ensures control { result ≡ control_of self.now number }
        ensures plan { IsPlan self.now }
    {
        self.controls[number as usize]
    }

    /// How many controls there are, at most 256.
    pub(crate) fn control_count(&self) -> u32
        ensures count { result ≡ length self.now.controls }
        ensures within { result ≤ MAX_CONTROLS }
    {
        self.controls.len() as u32
    }
}

// The first of some clusters that has the control, by its place.
fn place_of(clusters: &[Cluster], control: u32) -> Option<usize>
    ensures { result ≡ position (has_member control) clusters.now }
{
    clusters.iter().position(|cluster| cluster.has(control))
}

// Gives each control below a number that is in no cluster one of its own, the last.
fn cluster_each(clusters: &mut Vec<Cluster>, count: u32)
    requires { length clusters.old.items + count ≤ vec_capacity clusters.old }
    ensures { clusters.new.items ≡ clusters.old.items ++ map alone (in_none clusters.old.items count) }
{
    for control in 0..count {
        cluster_alone(clusters, control);
    }
}

// Gives a control that is in no cluster one of its own, the last.
#[tactic(auto, using(crate::proofs::ClusterLemmas::any_found))]
fn cluster_alone(clusters: &mut Vec<Cluster>, control: u32)
    requires { length clusters.old.items < vec_capacity clusters.old }
    ensures clusters { clusters.new.items ≡ (if list_any (has_member control) clusters.old.items then clusters.old.items else clusters.old.items ++ alone control ∷ []) }
    ensures room { vec_capacity clusters.new ≡ vec_capacity clusters.old }
    ensures few { length clusters.new.items ≤ length clusters.old.items + 1 }
{
    if place_of(clusters.as_slice(), control).is_none() {
        let calls = Relations {
            validator: None,
            notifier: None,
        };
        clusters.push_reserved(Cluster::new(&[control], None, calls));
    }
}

// Whether each number is below a bound.
fn are_below(numbers: &[u32], bound: u32) -> bool
    ensures { result ≡ list_all (λ n. nat_lt n bound) numbers.now }
{
    numbers.iter().all(|number| *number < bound)
}

// Whether some control is a member of some cluster.
fn some_clustered(clusters: &[Cluster], controls: &[u32]) -> bool
    ensures { result ≡ list_any (λ c. is_some (position (has_member c) clusters.now)) controls.now }
{
    controls
        .iter()
        .any(|control| place_of(clusters, *control).is_some())
}

// Whether some of these controls is an array.
fn some_array(controls: &[Ctrl], members: &[u32]) -> bool
    ensures { result ≡ list_any (λ c. is_array (control_in controls.now c)) members.now }
{
    members.iter().any(|member| is_array_at(controls, *member))
}

// Whether a control is there, and an array.
fn is_array_at(controls: &[Ctrl], control: u32) -> bool
    ensures { result ≡ is_array (control_in controls.now control) }
{
    match controls.get(control as usize) {
        Some(ctrl) => ctrl.is_array(),
        None => false,
    }
}

// Whether some number stands twice in a list.
fn names_twice(numbers: &[u32]) -> bool
    ensures { result ≡ names_twice numbers.now }
{
    for (place, number) in numbers.iter().enumerate() {
        if numbers[place + 1..].contains(number) {
            return true;
        }
    }
    false
}
