//! What the definitions over the history say of one more entry, and what a whole stretch of a history makes of a forecast. Each function is a
//! law that its contract states; none has anything to do.

ghost use Rattle.std.specs.Prelude.{◌≡◌, ◌<◌, ◌≤◌, ◌+◌, ◌*◌, ℕ, ℤ, Bool, Option, true, false, [], ◌∷◌, ◌++◌, List, length, map, is_some, slice_get, None, Some, Ok, Err};
ghost use Rattle.std.specs.List.{list_any};
ghost use Rattle.std.specs.Option.{option_map};
ghost use Rattle.history.specs.declared.entry.Entry.{Entry};
ghost use Rattle.history.specs.Past.{past};
ghost use Rattle.ctrl_calls.specs.Meanings.{Verdicts};
ghost use Rattle.ctrl_types.specs.declared.errno.Fault.{Fault};
ghost use Rattle.ctrl_types.specs.declared.ids.ExtControl.{ExtControl};
ghost use Rattle.ctrl_types.specs.Classes.{which_of};
ghost use Rattle.ctrl_types.specs.declared.value.CtrlValue.{CtrlValue};
ghost use Rattle.ctrl_types.specs.declared.ids.FhId.{FhId};
ghost use Rattle.ctrl_types.specs.declared.ids.RequestId.{RequestId};
ghost use Rattle.ctrl_types.specs.declared.ids.Pair.{Pair};
ghost use Rattle.ctrl_clusters.specs.ControlsData.{ControlsData, at_start};
ghost use Rattle.device_history.specs.declared.ask.Ask.{Ask};
ghost use Rattle.device_history.specs.declared.ask.Ask.TheVariants as asks;
ghost use Rattle.device_history.specs.declared.ask.Reply.TheVariants.{Controls, Frame};
ghost use Rattle.device_history.specs.declared.ask.Step.{Step};
ghost use Rattle.device_history.specs.declared.ask.Step.TheVariants.{Begin, CloseFh, Grab, ModifyRange, Set};
ghost use Rattle.ctrl_handlers.specs.Plan.{PlanData, IsPlan, calls_of, control, members};
ghost use Rattle.ctrl_clusters.specs.Rows.{AreControlsOf, value_at, row_of};
ghost use Rattle.device_history.specs.Grabs.{grabbed, grabbed_after};
ghost use Rattle.ctrl_clusters.specs.Notified.{MaySay};
ghost use Rattle.ctrl_clusters.specs.Overlay.{row_after};
ghost use Rattle.ctrl_clusters.specs.PresentFlags.{flags_under};
ghost use Rattle.device_history.specs.Flags.{flags_now};
ghost use Rattle.device_history.specs.Steps.{History, Past};
ghost use Rattle.device_history.specs.Controls.{controls_after, controls_now};
ghost use Rattle.device_history.specs.Ranges.{ranges_now};
ghost use Rattle.device_history.specs.Refusals.{fault_by, fault_of};
ghost use Rattle.device_history.specs.Handles.{opened, opened_after, handler_of};
ghost use Rattle.device_history.specs.Values.{defaults, now, values_after};
ghost use Rattle.device_history.specs.AskChecks.{check_of, fault_for, refusal_of};
ghost use Rattle.device_history.specs.Answers.{MayAnswer, answer_of, is_list, refusal, step_of};
ghost use Rattle.device_history.specs.Lists.{list_pairs, meant, set_list_answer, values_set, which_or};
ghost use Rattle.device_history.specs.Legal.{IsLegal, MayFollow};
ghost use Rattle.device_history.specs.Asking.{ask_by};
ghost use Rattle.device_history.specs.Words.{pairs_applied, changes};
ghost use Rattle.device_history.specs.Subscriptions.{subscribed, subscribed_after};
ghost use Rattle.device_history.specs.Requests.{asked, asked_after, buffer, buffer_after, state, state_after};
ghost use Rattle.device_history.specs.Frames.{queue, queue_after, running, running_after};
ghost use Rattle.device_history.specs.Snapshots.{begun_pairs, frames, request, requests};
ghost use Rattle.device_history.specs.FrameSteps.{frames_after, request_after};
ghost use Rattle.device_history.specs.Forecasts.{forecast, queued_frames, waiting_after};
ghost use Rattle.device_history.specs.Events.{next_sequence, payload, raises, raises_from, all_raised_for};
ghost use Rattle.ctrl_raises.specs.Raises.{changed_between, needing_feedback, payload_at, raised_all};
ghost use Rattle.device_history.specs.declared.limits.TheConstants.{MAX_STEPS};
ghost use Rattle.device_history.specs.EventSteps.{AreAround, AreEvents, events_after, raised_by};
ghost use Rattle.ctrl_events.specs.Events.{FileEvents, no_events};
ghost use Rattle.device_history.specs.Stretches.{all_go_on, begins};
ghost use Rattle.ctrl_forecast.specs.declared.board.Forecast.{Forecast};
ghost use Rattle.frame_queue.specs.Frames.{FramesData, QueueFitsRequests};
ghost use Rattle.req_book.specs.Requests.{find};

use ctrl_calls::Driver;

/// At first no file handle is open; one more entry makes of the open ones what its step makes of them.
#[tactic(auto, using(crate::proofs::PastLemmas::opened_start, crate::proofs::PastLemmas::opened_add))]
pub fn open_handles()
    ensures start { opened (past []) ≡ [] }
    ensures one_more { (steps : History) (e : Entry Step) → opened (past (steps ++ e ∷ [])) ≡ opened_after (length steps) e.step (opened (past steps)) }
{}

/// A file handle that a step closes isn't open then. One that isn't open once the step that its id numbers was made is never
/// opened again.
#[tactic(auto, using(crate::proofs::PastLemmas::closed_gone, crate::proofs::PastLemmas::gone_for_good))]
pub fn closed_handles()
    ensures closed { (steps : History) (e : Entry Step) (fh : FhId) → e.step ≡ CloseFh fh → handler_of (past (steps ++ e ∷ [])) fh ≡ None }
    ensures for_good { (steps more : History) (fh : FhId) → fh.0 < length steps → handler_of (past steps) fh ≡ None → handler_of (past (steps ++ more)) fh ≡ None }
{}

/// At first the controls are as the plan has them: its ranges, the defaults, and no grabs; one more entry makes of ranges, values and grabs what its step makes of
/// them. At every moment the ranges are of the plan's controls: a range change leaves id, kind, flags, skipped items and the number of elements.
#[tactic(auto, using(crate::proofs::ControlsLemmas::controls_start, crate::proofs::ControlsLemmas::controls_add))]
pub fn present_controls()
    ensures start { (verdicts : Verdicts) (plan : PlanData) → controls_now verdicts plan (past []) ≡ at_start plan }
    ensures one_more { (verdicts : Verdicts) (plan : PlanData) (steps : History) (e : Entry Step) → controls_now verdicts plan (past (steps ++ e ∷ [])) ≡ controls_after verdicts plan (past steps) e.step (controls_now verdicts plan (past steps)) }
    ensures own { (plan : PlanData) (older : Past) → AreControlsOf plan (ranges_now plan older) }
{}

/// A set of present values that is accepted is made whole: no cluster is refused, so that each has the row that its pairs make of it; and each entry is answered
/// the value that its control has then.
pub fn whole_sets()
    ensures rows { (verdicts : Verdicts) (plan : PlanData) (older : Past) (fh : FhId) (which k : ℕ) (request : Option RequestId) (list answers : List ExtControl) → IsPlan plan → meant (which_or (which_of which)) request ≡ None
        → set_list_answer verdicts plan older fh which request list ≡ Ok (Controls answers)
        → k < length plan.clusters → row_after verdicts plan (ranges_now plan older) (now verdicts plan older) (grabbed plan older) (list_pairs plan older fh which list) k ≡ Ok (row_of (values_set verdicts plan older fh which list) (members plan k)) }
    ensures answers { (verdicts : Verdicts) (plan : PlanData) (older : Past) (fh : FhId) (which : ℕ) (request : Option RequestId) (list answers : List ExtControl) → IsPlan plan → meant (which_or (which_of which)) request ≡ None
        → set_list_answer verdicts plan older fh which request list ≡ Ok (Controls answers)
        → answers ≡ map (λ p. record { id = (control plan p.control).id; value = value_at (values_set verdicts plan older fh which list) p.control }) (list_pairs plan older fh which list) }
{}

/// The present flags are those that the present values and the grabs make; one more entry makes of them what its step makes of
/// both.
#[tactic(auto, using(crate::proofs::PastLemmas::flags_start, crate::proofs::PastLemmas::flags_add))]
pub fn present_flags()
    ensures start { (verdicts : Verdicts) (plan : PlanData) (c : ℕ) → flags_now verdicts plan (past []) c ≡ flags_under plan (defaults plan) (map (λ _. false) plan.controls) c }
    ensures one_more { (verdicts : Verdicts) (plan : PlanData) (steps : History) (e : Entry Step) (c : ℕ) → flags_now verdicts plan (past (steps ++ e ∷ [])) c
        ≡ flags_under plan (values_after verdicts plan (past steps) e.step (now verdicts plan (past steps))) (grabbed_after e.step (grabbed plan (past steps))) c }
{}

/// A driver's cluster, no member of which changes, keeps a word that it may have been told, also where other clusters change.
pub fn told_words<D: Driver>()
    ensures { (verdicts : Verdicts) (plan : PlanData) (steps : History) (e : Entry Step) (k word : ℕ)
        → list_any (changes plan (now verdicts plan (past steps)) (values_after verdicts plan (past steps) e.step (now verdicts plan (past steps))) (pairs_applied verdicts plan (past steps) e.step)) (members plan k) ≡ false
        → MaySay D.told (calls_of plan k).notifier (row_of (now verdicts plan (past steps)) (members plan k)) word
        → MaySay D.told (calls_of plan k).notifier (row_of (now verdicts plan (past (steps ++ e ∷ []))) (members plan k)) word }
{}

/// A refusal has an index exactly where the ask is one about a list. The words that were told don't matter to it.
#[tactic(auto, using(crate::proofs::IndexLemmas::index_of_lists, crate::proofs::LegalLemmas::refusal_of))]
pub fn refusals()
    ensures index { (verdicts : Verdicts) (plan : PlanData) (older : Past) (words : List ℕ) (ask : Ask) (fault : Fault) → MayAnswer verdicts plan older words ask (Err fault) → is_some fault.index ≡ is_list ask }
    ensures words { (verdicts : Verdicts) (plan : PlanData) (older : Past) (words : List ℕ) (ask : Ask) → fault_of (answer_of verdicts plan older words ask) ≡ refusal verdicts plan older ask }
{}

/// Where memory suffices, an ask is refused exactly where something refuses it, and the fault is what this makes: the errno of its check, and of a try its entry,
/// where it has one, as the index; a get and a set are refused with the number of entries, and no other ask has an index. So an ask that is no list is refused
/// exactly where a check refuses it, with the errno of this check and without an index.
#[tactic(auto, using(crate::proofs::CheckLemmas::explained, crate::proofs::CheckLemmas::refused_by_checks))]
pub fn refusals_by_checks()
    ensures all { (verdicts : Verdicts) (plan : PlanData) (older : Past) (ask : Ask) → refusal verdicts plan older ask ≡ option_map (fault_for ask) (refusal_of verdicts plan older ask) }
    ensures alone { (verdicts : Verdicts) (plan : PlanData) (older : Past) (ask : Ask) → is_list ask ≡ false → refusal verdicts plan older ask ≡ option_map fault_by (check_of verdicts plan older ask) }
{}

/// The empty history is legal; one more entry keeps it so where its step may follow. What a legal history begins with is legal.
#[tactic(auto, using(crate::proofs::PastLemmas::legal_start, crate::proofs::PastLemmas::legal_add, crate::proofs::PastLemmas::legal_last, crate::proofs::PastLemmas::legal_front))]
pub fn legal_histories()
    ensures start { (verdicts : Verdicts) (plan : PlanData) → IsLegal verdicts plan (past []) }
    ensures one_more { (verdicts : Verdicts) (plan : PlanData) (steps : History) (e : Entry Step) → IsLegal verdicts plan (past steps) → MayFollow verdicts plan (past steps) e.step → IsLegal verdicts plan (past (steps ++ e ∷ [])) }
    ensures last { (verdicts : Verdicts) (plan : PlanData) (steps : History) (e : Entry Step) → IsLegal verdicts plan (past (steps ++ e ∷ [])) → MayFollow verdicts plan (past steps) e.step }
    ensures front { (verdicts : Verdicts) (plan : PlanData) (steps more : History) → IsLegal verdicts plan (past (steps ++ more)) → IsLegal verdicts plan (past steps) }
{}

/// Whether a step may follow a history is told by one ask, which is made of the step: the step may follow where nothing refuses this ask and it
/// adds the step, and only there.
pub fn deciding_asks()
    ensures enough { (verdicts : Verdicts) (plan : PlanData) (older : Past) (step : Step) → refusal verdicts plan older (ask_by plan older step) ≡ None → step_of verdicts plan older (ask_by plan older step) ≡ Some step → MayFollow verdicts plan older step }
    ensures needed { (verdicts : Verdicts) (plan : PlanData) (older : Past) (step : Step) → MayFollow verdicts plan older step
        → (refusal verdicts plan older (ask_by plan older step) ≡ None) × (step_of verdicts plan older (ask_by plan older step) ≡ Some step) }
{}

/// At first nothing is subscribed; one more entry that may follow a legal history makes of each subscription what its step makes of it.
#[tactic(auto, using(crate::proofs::SubscriptionLemmas::subscribed_start, crate::proofs::SubscriptionLemmas::subscribed_add))]
pub fn subscriptions()
    ensures start { (fh : FhId) (c : ℕ) → subscribed (past []) fh c ≡ None }
    ensures one_more { (verdicts : Verdicts) (plan : PlanData) (steps : History) (e : Entry Step) (fh : FhId) (c : ℕ) → IsLegal verdicts plan (past steps) → MayFollow verdicts plan (past steps) e.step
        → subscribed (past (steps ++ e ∷ [])) fh c ≡ subscribed_after e.step fh c (subscribed (past steps) fh c) }
{}

/// At first there is no request; one more entry makes of each request's state what its step makes of it.
#[tactic(auto, using(crate::proofs::StateLemmas::state_start, crate::proofs::StateLemmas::state_add))]
pub fn request_states()
    ensures start { (r : ℕ) → state (past []) r ≡ None }
    ensures one_more { (steps : History) (e : Entry Step) (r : ℕ) → state (past (steps ++ e ∷ [])) r ≡ state_after (length steps) e.step r (state (past steps) r) }
{}

/// At first nothing is asked for; one more entry makes of what a request asks for what its step makes of it: of each control a later stored
/// pair takes the place of the earlier one.
#[tactic(auto, using(crate::proofs::StateLemmas::asked_start, crate::proofs::StateLemmas::asked_add))]
pub fn asked_pairs()
    ensures start { (plan : PlanData) (r : ℕ) → asked plan (past []) r ≡ [] }
    ensures one_more { (plan : PlanData) (steps : History) (e : Entry Step) (r : ℕ) → asked plan (past (steps ++ e ∷ [])) r ≡ asked_after plan (length steps) e.step r (asked plan (past steps) r) }
{}

/// At first no request has a buffer; one more entry makes of a request's buffer what its step makes of it.
#[tactic(auto, using(crate::proofs::StateLemmas::buffer_start, crate::proofs::StateLemmas::buffer_add))]
pub fn request_buffers()
    ensures start { (r : ℕ) → buffer (past []) r ≡ None }
    ensures one_more { (steps : History) (e : Entry Step) (r : ℕ) → buffer (past (steps ++ e ∷ [])) r ≡ buffer_after (length steps) e.step r (buffer (past steps) r) }
{}

/// One more entry makes of the queue, and of the request whose frame is being made, what its step makes of them.
#[tactic(auto, using(crate::proofs::FrameLaw::queue_add, crate::proofs::FrameLaw::running_add))]
pub fn queued_requests()
    ensures queue { (steps : History) (e : Entry Step) → queue (past (steps ++ e ∷ [])) ≡ queue_after (length steps) e.step (queue (past steps)) }
    ensures running { (steps : History) (e : Entry Step) → running (past (steps ++ e ∷ [])) ≡ running_after (length steps) e.step (running (past steps)) }
{}

/// At first there is no request; one more entry that may follow a legal history makes of each one, with what the begin of its frame applied
/// and its snapshot, what the store of requests makes of it. What is let go is never there again.
#[tactic(auto, using(crate::proofs::FrameLaw::request_start, crate::proofs::FrameLaw::request_add, crate::proofs::FrameLaw::freed_for_good))]
pub fn each_request()
    ensures start { (verdicts : Verdicts) (plan : PlanData) (r : ℕ) → request verdicts plan (past []) r ≡ None }
    ensures one_more { (verdicts : Verdicts) (plan : PlanData) (steps : History) (e : Entry Step) (r : ℕ) → IsLegal verdicts plan (past steps) → MayFollow verdicts plan (past steps) e.step
        → request verdicts plan (past (steps ++ e ∷ [])) r ≡ request_after verdicts plan (past steps) (length steps) e.step r (request verdicts plan (past steps) r) }
    ensures for_good { (verdicts : Verdicts) (plan : PlanData) (steps more : History) (r : ℕ) → IsLegal verdicts plan (past (steps ++ more)) → r < length steps → state (past steps) r ≡ None → state (past (steps ++ more)) r ≡ None }
{}

/// The store of requests and the queue of frames, changed by the steps of a legal history one after another, are what the definitions over the
/// history say; the queue has exactly the queued requests, each once; and the store finds each request under its id.
#[tactic(auto, using(crate::proofs::FrameLaw::frames_start, crate::proofs::FrameLaw::frames_add, crate::proofs::FrameLaw::frames_legal, crate::proofs::FrameLaw::found_request))]
pub fn kept_frames()
    ensures start { (verdicts : Verdicts) (plan : PlanData) → ◌≡◌ {A = FramesData} (frames verdicts plan (past [])) (record { requests = record { controls = length plan.controls; all = [] }; queue = []; running = None }) }
    ensures one_more { (verdicts : Verdicts) (plan : PlanData) (steps : History) (e : Entry Step) → IsLegal verdicts plan (past steps) → MayFollow verdicts plan (past steps) e.step
        → frames verdicts plan (past (steps ++ e ∷ [])) ≡ frames_after verdicts plan (past steps) (length steps) e.step (frames verdicts plan (past steps)) }
    ensures queue { (verdicts : Verdicts) (plan : PlanData) (older : Past) → IsLegal verdicts plan older → QueueFitsRequests (frames verdicts plan older) }
    ensures found { (verdicts : Verdicts) (plan : PlanData) (older : Past) (r : ℕ) → IsLegal verdicts plan older → find (requests verdicts plan older) r ≡ request verdicts plan older r }
{}

/// One more entry that may follow a legal history makes of the queued frames, each with its request, its buffer and what it asks for, what its
/// step makes of them. No step changes what a queued frame asks for.
#[tactic(auto, using(crate::proofs::QueuedFrames::waiting_add))]
pub fn waiting_frames()
    ensures { (verdicts : Verdicts) (plan : PlanData) (steps : History) (e : Entry Step) → IsLegal verdicts plan (past steps) → MayFollow verdicts plan (past steps) e.step
        → queued_frames plan (past (steps ++ e ∷ [])) ≡ waiting_after plan (past steps) e.step (queued_frames plan (past steps)) }
{}

/// What the store of events keeps of a file handle, changed by the steps of a legal history one after another, is what the definitions over the
/// history say: its subscriptions, the events that wait, in order, and the number of the next raise. A file handle that isn't open has none. A
/// step raises at most one event of each control for it, so that there are numbers for all.
pub fn kept_events()
    ensures start { (verdicts : Verdicts) (plan : PlanData) (fh : FhId) → AreEvents verdicts plan (past []) fh no_events }
    ensures one_more { (verdicts : Verdicts) (plan : PlanData) (steps : History) (e : Entry Step) (fh : FhId) (f : FileEvents) → IsPlan plan → IsLegal verdicts plan (past steps) → MayFollow verdicts plan (past steps) e.step
        → AreEvents verdicts plan (past steps) fh f → AreEvents verdicts plan (past (steps ++ e ∷ [])) fh (events_after verdicts plan e (past steps) fh f) }
    ensures numbers { (verdicts : Verdicts) (plan : PlanData) (older : Past) (fh : FhId) (f : FileEvents) → IsPlan plan → length older ≤ MAX_STEPS → AreEvents verdicts plan older fh f → f.next + length plan.controls ≤ 4294967295 }
    ensures few { (verdicts : Verdicts) (plan : PlanData) (older : Past) (fh : FhId) → next_sequence verdicts plan older fh ≤ length plan.controls * length older }
{}

/// At first nothing was raised for a file handle; one more entry raises behind that what `all_raised_for` says, in the order of control numbers, with
/// payloads that are read after it, each with the next number.
#[tactic(auto, using(crate::proofs::RaiseLaw::raises_start, crate::proofs::RaiseLaw::raises_add))]
pub fn added_raises()
    ensures start { (verdicts : Verdicts) (plan : PlanData) (fh : FhId) → raises verdicts plan (past []) fh ≡ [] }
    ensures one_more { (verdicts : Verdicts) (plan : PlanData) (steps : History) (e : Entry Step) (fh : FhId) → raises verdicts plan (past (steps ++ e ∷ [])) fh
        ≡ raises verdicts plan (past steps) fh ++ raises_from (length (raises verdicts plan (past steps) fh)) (payload verdicts plan (past (steps ++ e ∷ []))) (all_raised_for verdicts plan e (past steps) fh) }
{}

/// What a set, a begin, a grab and a range change raise is what changes between the ranges, values and grabs before and those after; the payload of what a
/// subscription raises is read of those after.
pub fn raised_events()
    ensures set { (verdicts : Verdicts) (plan : PlanData) (e : Entry Step) (older : Past) (before after : ControlsData) (from : FhId) (pairs : List Pair) (fh : FhId) (cs : List ℕ) (f : FileEvents) → e.step ≡ Set from pairs → AreAround verdicts plan e older before after
        → raised_all (changed_between plan before after pairs) (payload_at plan after) (λ c. needing_feedback (Some from.0) pairs (changed_between plan before after pairs c) c) fh.0 cs f ≡ raised_by verdicts plan e older fh cs f }
    ensures begin { (verdicts : Verdicts) (plan : PlanData) (e : Entry Step) (older : Past) (before after : ControlsData) (r : RequestId) (fh : FhId) (cs : List ℕ) (f : FileEvents) → e.step ≡ Begin r → AreAround verdicts plan e older before after
        → raised_all (changed_between plan before after (begun_pairs verdicts plan older r.0)) (payload_at plan after) (λ c. needing_feedback None (begun_pairs verdicts plan older r.0) (changed_between plan before after (begun_pairs verdicts plan older r.0) c) c) fh.0 cs f
        ≡ raised_by verdicts plan e older fh cs f }
    ensures grab { (verdicts : Verdicts) (plan : PlanData) (e : Entry Step) (older : Past) (before after : ControlsData) (d : ℕ) (on : Bool) (fh : FhId) (cs : List ℕ) (f : FileEvents) → e.step ≡ Grab d on → AreAround verdicts plan e older before after
        → raised_all (changed_between plan before after []) (payload_at plan after) (λ c. needing_feedback None [] (changed_between plan before after [] c) c) fh.0 cs f ≡ raised_by verdicts plan e older fh cs f }
    ensures range { (verdicts : Verdicts) (plan : PlanData) (e : Entry Step) (older : Past) (before after : ControlsData) (d : ℕ) (low high : ℤ) (apart : ℕ) (default_value : ℤ) (fh : FhId) (cs : List ℕ) (f : FileEvents) → e.step ≡ ModifyRange d low high apart default_value → AreAround verdicts plan e older before after
        → raised_all (changed_between plan before after []) (payload_at plan after) (λ c. needing_feedback None [] (changed_between plan before after [] c) c) fh.0 cs f ≡ raised_by verdicts plan e older fh cs f }
    ensures subscription { (verdicts : Verdicts) (plan : PlanData) (e : Entry Step) (older : Past) (at : ControlsData) (c : ℕ) → at ≡ controls_now verdicts plan (e ∷ older) → payload_at plan at c ≡ payload verdicts plan (e ∷ older) c }
{}

/// What is forecast is what a begin then makes, whichever seats make the steps, as long as no set of present values, no grab or release, no
/// range change, no cancellation and no end of the stream comes between. A forecast has a row for each queued request, in the order of the queue. While a legal
/// history goes on without these steps, the rows stand as they are, and each begin of a frame moves them up by one. So the begin behind i others
/// is of the request of row i, counted from 0; it makes the present values those of the row, and its answer is the row's request, buffer and
/// refused clusters.
pub fn frames_as_forecast()
    ensures rows { (verdicts : Verdicts) (plan : PlanData) (older : Past) → map (λ row. row.request.0) (forecast verdicts plan older) ≡ queue older }
    ensures stand { (verdicts : Verdicts) (plan : PlanData) (steps more : History) (i : ℕ) (row : Forecast) → IsLegal verdicts plan (past (steps ++ more)) → all_go_on more ≡ true
        → slice_get (forecast verdicts plan (past steps)) (begins more + i) ≡ Some row → slice_get (forecast verdicts plan (past (steps ++ more))) i ≡ Some row }
    ensures request { (verdicts : Verdicts) (plan : PlanData) (steps more : History) (e : Entry Step) (r : RequestId) (row : Forecast) → IsLegal verdicts plan (past (steps ++ more ++ e ∷ [])) → all_go_on more ≡ true → e.step ≡ Begin r
        → slice_get (forecast verdicts plan (past steps)) (begins more) ≡ Some row → r ≡ row.request }
    ensures values { (verdicts : Verdicts) (plan : PlanData) (steps more : History) (e : Entry Step) (r : RequestId) (row : Forecast) → IsLegal verdicts plan (past (steps ++ more ++ e ∷ [])) → all_go_on more ≡ true → e.step ≡ Begin r
        → slice_get (forecast verdicts plan (past steps)) (begins more) ≡ Some row → now verdicts plan (past (steps ++ more ++ e ∷ [])) ≡ row.values }
    ensures reply { (verdicts : Verdicts) (plan : PlanData) (steps more : History) (e : Entry Step) (r : RequestId) (row : Forecast) → IsLegal verdicts plan (past (steps ++ more ++ e ∷ [])) → all_go_on more ≡ true → e.step ≡ Begin r
        → slice_get (forecast verdicts plan (past steps)) (begins more) ≡ Some row → (words : List ℕ) → answer_of verdicts plan (past (steps ++ more)) words asks.Begin ≡ Ok (Frame row.request row.buffer row.refused) }
{}
