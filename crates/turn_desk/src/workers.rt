//! Two workers, each on a thread of its own.
ghost use Rattle.std.specs.Prelude.{◌≡◌, IsTrue, IsFalse, IfOk, IfErr};

use std::snapshot::Snapshot;
use std::sync::{OnceLock, OnceToken, Wait};
use std::thread;
use std::thread::{Promise, PromisedHandle, Scope, SpawnError, Threads};

/// Work for one thread.
pub trait Worker {
    /// What is left of it in the end.
    type Rest;

    /// It may start.
    ghost may: { Self → Type 0 };

    /// What may be left once it is done.
    ghost finishes: { Self → Self.Rest → Type 0 };

    /// What may be left where it was given up.
    ghost gives_up: { Self → Self.Rest → Type 0 };

    /// Does the work.
    fn work(self) -> Self::Rest
        requires { may self }
        ensures { finishes self result };

    /// Gives it up before it starts.
    fn rest(self) -> Self::Rest
        requires { may self }
        ensures { gives_up self result };
}

// What a thread leaves is left of its worker, as it was said.
#[derive(Drop)]
struct Left<'a, W> {
    worker: Snapshot<W>,
    goes: &'a OnceLock<bool>,
}

impl<'a, W: Worker> Promise<(W::Rest, OnceToken<'a, bool>)> for Left<'a, W> {
    ghost use Rattle.std.specs.Prelude.{◌≡◌, IsTrue, IsFalse};

    ghost kept_by = { λ p r. (r.1.of ≡ p.goes.now.id) × (IsTrue r.1.value → W.finishes p.worker.value r.0) × (IsFalse r.1.value → W.gives_up p.worker.value r.0) };
}

// Waits until it is said whether both go, and shows what was said.
fn hear<'a, R: Wait>(rt: &R, goes: &'a OnceLock<bool>) -> OnceToken<'a, bool>
    ensures { result.of ≡ goes.now.id }
{
    for _ in rt.forever() {
        goes.wait(rt);
        if let Some(token) = goes.witness() {
            return token;
        }
    }
    unreachable!()
}

// Does the work once it is said that both go, or else gives it up.
fn start<'a, R: Wait, W: Worker>(
    rt: &R,
    goes: &'a OnceLock<bool>,
    worker: W,
) -> (W::Rest, OnceToken<'a, bool>)
    requires { W.may worker }
    ensures said { result.1.of ≡ goes.now.id }
    ensures done { IsTrue result.1.value → W.finishes worker result.0 }
    ensures given_up { IsFalse result.1.value → W.gives_up worker result.0 }
{
    let token = hear(rt, goes);
    if *goes.value(&token) {
        (worker.work(), token)
    } else {
        (worker.rest(), token)
    }
}

// The rest of a worker, which heard what this token shows.
fn agreed<'a, X>(token: &OnceToken<'a, bool>, left: (X, OnceToken<'a, bool>)) -> X
    requires { left.1.of ≡ token.now.of }
    ensures rest { result ≡ left.entry.0 }
    ensures agrees { left.entry.1.value ≡ token.now.value }
{
    let (rest, mine) = left;
    mine.agrees(token);
    rest
}

// A thread of the scope, or the closure back where none can be made, or none may be.
fn spawned<'s, E, P: Promise<X> + Drop, F: FnOnce() -> X + Send + 's, X: Send + Drop + 's>(
    scope: &Scope<'s, E>,
    may: bool,
    promise: P,
    f: F,
) -> Result<PromisedHandle<X, P>, SpawnError<F>>
    requires runs { F.pre f }
    requires keeps { (r : X) → F.post f r → P.kept_by promise r }
    ensures ok { IfOk result (λ h. h.promise ≡ promise) }
    ensures err { IfErr result (λ e. e.value ≡ f) }
{
    if may {
        scope.spawn_with(promise, f)
    } else {
        Err(SpawnError { value: f })
    }
}

/// Runs two workers, each on a thread of its own, and waits for both. Each begins only once there is a thread for both.
///
/// It says whether both were done. Where a thread could not be made, both were given up.
pub fn run_both<R: Threads + Wait + Sync, W: Worker + Drop + Send>(
    rt: &R,
    first: W,
    second: W,
) -> (W::Rest, W::Rest, bool)
where
    W::Rest: Send + Drop,
    requires first { W.may first }
    requires second { W.may second }
    ensures done { IsTrue result.2 → W.finishes first result.0 × W.finishes second result.1 }
    ensures given_up { IsFalse result.2 → W.gives_up first result.0 × W.gives_up second result.1 }
{
    run_both_within(rt, 2, first, second)
}

/// As `run_both`, where at most so many threads may be made: with fewer than 2 both workers are given up.
pub fn run_both_within<R: Threads + Wait + Sync, W: Worker + Drop + Send>(
    rt: &R,
    threads: u32,
    first: W,
    second: W,
) -> (W::Rest, W::Rest, bool)
where
    W::Rest: Send + Drop,
    requires first { W.may first }
    requires second { W.may second }
    ensures done { IsTrue result.2 → W.finishes first result.0 × W.finishes second result.1 }
    ensures given_up { IsFalse result.2 → W.gives_up first result.0 × W.gives_up second result.1 }
{
    let said = OnceLock::new();
    let goes = &said;
    thread::scope(
        thread::scope_env(),
        rt,
        move |scope| -> (W::Rest, W::Rest, bool)
            requires { W.may first × W.may second }
            ensures done { IsTrue result.2 → W.finishes first result.0 × W.finishes second result.1 }
            ensures given_up { IsFalse result.2 → W.gives_up first result.0 × W.gives_up second result.1 }
        {
            let worker = Snapshot::of(&first);
            let promise = Left { worker, goes };
            let one = match spawned(scope, threads > 0, promise, move || start(rt, goes, first)) {
                Ok(one) => one,
                Err(refused) => {
                    let token = goes.init(rt, || false);
                    let one = agreed(&token, (refused.value)());
                    let two = agreed(&token, start(rt, goes, second));
                    return (one, two, *goes.value(&token));
                }
            };
            let worker = Snapshot::of(&second);
            let promise = Left { worker, goes };
            match spawned(scope, threads > 1, promise, move || start(rt, goes, second)) {
                Ok(two) => {
                    let token = goes.init(rt, || true);
                    let one = agreed(&token, one.join(rt));
                    let two = agreed(&token, two.join(rt));
                    (one, two, *goes.value(&token))
                }
                Err(refused) => {
                    let token = goes.init(rt, || false);
                    let one = agreed(&token, one.join(rt));
                    let two = agreed(&token, (refused.value)());
                    (one, two, *goes.value(&token))
                }
            }
        },
    )
}
