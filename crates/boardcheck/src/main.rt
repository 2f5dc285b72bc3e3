// Checks the board on standard input and prints the verdict.
#![tactic(auto)]

ghost use Rattle.std.specs.Prelude.{◌≡◌, OnOk, IfErr, IfSome};
ghost use Rattle.paper.specs.Output.{check_prints};
ghost use Rattle.console.specs.Loss.{IsReading};
ghost use Rattle.std.specs.Io.KnownBytes.{Appends};

use console::{Lost, OrClosed};
use paper::Numbers;
use std::io::{Read, Write};
use text::keys::SLACK;
use text::print::{print_all, print_numbers};

// What is printed for a board, at the front of `out`. The run has a report of its own in `boardrun`; what the two share is in
// `text::print`.
fn report<'a>(board: &[u8], out: &'a mut [u8; 4096]) -> &'a [u8]
    ensures { result.now ≡ check_prints board.now }
{
    match verdict::check(board) {
        Ok(slacks) => {
            let first = print_numbers(out, Numbers::from(Ok(())));
            let end = print_all(out, first, &SLACK, &slacks);
            &out[..end]
        }
        Err(refusal) => {
            let end = print_numbers(out, Numbers::from(Err(refusal)));
            &out[..end]
        }
    }
}

// Prints what the check says of the board that `from` has.
fn answer<R: Read, W: Write>(from: &mut R, to: &mut W) -> Result<(), Lost>
    ensures ok { OnOk result (IfSome (R.remaining from.old) (λ text.
        Appends (W.contents to.old) (W.contents to.new) (check_prints text))) }
    ensures err { IfErr result (λ lost. IsReading lost → to.new ≡ to.old) }
{
    let mut out = [0u8; 4096];
    let lent = &mut out;
    console::answer(from, to, move |board: &[u8]| report(board, lent))
}

// Each program names itself on standard error; what the two share is in `console`.
fn main(rt: HostRuntime) {
    let mut from = OrClosed(rt.stdin());
    let mut to = rt.stdout();
    if let Err(lost) = answer(&mut from, &mut to) {
        let _ = eprintln!(rt; "boardcheck: {lost}");
    }
}
