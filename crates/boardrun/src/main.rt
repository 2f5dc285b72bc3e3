// Runs the board and the release list on standard input and prints the answer and the responses.
#![tactic(auto)]

ghost use Rattle.std.specs.Prelude.{◌≡◌, OnOk, IfErr, IfSome};
ghost use Rattle.paper.specs.Output.{run_prints};
ghost use Rattle.console.specs.Loss.{IsReading};
ghost use Rattle.std.specs.Io.KnownBytes.{Appends};

use console::{Lost, OrClosed};
use paper::Numbers;
use std::io::{Read, Write};
use text::keys::RESPONSE;
use text::print::{print_all, print_numbers};

// What is printed for a board and a list, at the front of `out`. A place is lent for each release that a list can have. The check
// has a report of its own in `boardcheck`; what the two share is in `text::print`.
fn report<'a>(both: &[u8], out: &'a mut [u8; 32768]) -> &'a [u8]
    ensures { result.now ≡ run_prints both.now }
{
    let mut places = [0u32; 1000];
    match run::run(both, &mut places) {
        Ok(count) => {
            let first = print_numbers(out, Numbers::from(Ok(())));
            let end = print_all(out, first, &RESPONSE, &places[..count]);
            &out[..end]
        }
        Err(refusal) => {
            let end = print_numbers(out, Numbers::from(Err(refusal)));
            &out[..end]
        }
    }
}

// Prints what the run says of the board and the list that `from` has.
fn answer<R: Read, W: Write>(from: &mut R, to: &mut W) -> Result<(), Lost>
    ensures ok { OnOk result (IfSome (R.remaining from.old) (λ text.
        Appends (W.contents to.old) (W.contents to.new) (run_prints text))) }
    ensures err { IfErr result (λ lost. IsReading lost → to.new ≡ to.old) }
{
    let mut out = [0u8; 32768];
    let lent = &mut out;
    console::answer(from, to, move |both: &[u8]| report(both, lent))
}

// Each program names itself on standard error; what the two share is in `console`.
fn main(rt: HostRuntime) {
    let mut from = OrClosed(rt.stdin());
    let mut to = rt.stdout();
    if let Err(lost) = answer(&mut from, &mut to) {
        let _ = eprintln!(rt; "boardrun: {lost}");
    }
}
