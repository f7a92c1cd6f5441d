//! A request: the checks before its step, the step, the checks when it has ended, and the rollback of one that they refuse.
#![tactic(auto)]

ghost use Rattle.std.specs.Prelude.{◌≡◌};
ghost use Rattle.model.specs.Relations as model;
ghost use Rattle.model.specs.Refusals.{verdict_of, first_refusal};
ghost use Rattle.model.specs.Machine.{effect};
ghost use Rattle.net.specs.Nets.{contexts_of, net_with};
ghost use Rattle.net.specs.Markings.{counts_in};
ghost use Rattle.step.specs.Steps.{Describes};
ghost use Rattle.requests.specs.Judges.{tests_before, tests_after, told, Judges};

use model::{Answer, Refusal, Request, Verdict};
use net::Net;
use step::{Places, Stepped};

/// The checks before anything fires: the context is the net's, and active where it is to be deactivated.
fn check_before(net: &Net, counts: &[u8; 48], request: Request) -> Result<(), Refusal>
    ensures { verdict_of result ≡ first_refusal (tests_before (contexts_of net.now) (counts_in counts.now) request) }
{
    if net.contexts() <= request.context {
        return Err(Refusal::NoSuchContext);
    }
    if !request.on && counts[request.context] == 0 {
        return Err(Refusal::AlreadyOff);
    }
    Ok(())
}

/// The checks of a step that has ended: it is quiet, no temporary place holds a token, and an activation has raised its context's
/// count.
fn check_after(
    stepped: Stepped,
    clear: bool,
    request: Request,
    before: u8,
    after: u8,
) -> Result<(), Refusal>
    ensures { verdict_of result ≡ first_refusal (tests_after stepped.quiet clear request before after) }
{
    if !stepped.quiet {
        return Err(Refusal::StepLimitMet);
    }
    if !clear {
        return Err(Refusal::TokensLeft);
    }
    if request.on && after <= before {
        return Err(Refusal::NotRaised);
    }
    Ok(())
}

/// The answer to a request that made its step: the firings are told, also where they are rolled back.
fn answer(verdict: Verdict, stepped: Stepped) -> Answer
    ensures { result ≡ told verdict stepped }
{
    Answer {
        verdict,
        firings: stepped.firings,
        forced: stepped.forced,
    }
}

/// Answers a request at these counts. A granted one leaves them as its step ends; a refused one leaves them as they were.
pub fn judge(net: &Net, capacities: &[u8; 48], counts: &mut [u8; 48], request: Request) -> Answer
    ensures own { Judges result counts.new
        (effect (net_with net.now capacities.now) (counts_in counts.old) request) }
    ensures every { (whole : model.Net) → Describes whole net.now capacities.now
        → Judges result counts.new (effect whole (counts_in counts.old) request) }
{
    let c = request.context;
    let before = Verdict::from(check_before(net, counts, request));
    if !before.is_granted() {
        return Answer::unfired(before);
    }
    let mut places = Places::at_rest(net, capacities, counts);
    places.begin(request);
    let stepped = places.run(net);
    let clear = places.is_clear();
    let after = *places.counts();
    let verdict = Verdict::from(check_after(stepped, clear, request, counts[c], after[c]));
    if verdict.is_granted() {
        *counts = after;
    }
    answer(verdict, stepped)
}
