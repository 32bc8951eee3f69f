//! What passes list, read beside a history, each line with the next call of its client. It takes no memory.
ghost use Rattle.std.specs.Prelude.{◌≡◌, ◌+◌, ◌≤◌, ◌↔◌, ℕ, true, false, All, IfSome, None, Some, get_or, length, map, slice_get, take};
ghost use Rattle.mt_desk.specs.Histories.{call_of, calls_of};
ghost use Rattle.mt_desk.specs.Numbers.{AreNumbers, AreRead};
ghost use Rattle.mt_desk.specs.Passes.{Differs, IsOf, IsOfPass, ListsCalls, ListsOthers};

use crate::history::is_of;
use crate::numbers::Numbers;
use crate::{Call, DeskName, Line, Pass};

/// Whether a line is of the call behind so many of some.
fn is_of_next(line: &Line, calls: &[Call], read: usize) -> bool
    ensures { (result ≡ true) ↔ (slice_get calls.now read ≡ Some (call_of line.now)) }
{
    match calls.get(read) {
        Some(call) => is_of(line, call),
        None => false,
    }
}

/// Whether the calls of a client in a history are these, in their order, and no others.
fn has_calls(history: &[Line], client: u16, calls: &[Call]) -> bool
    ensures same { result ≡ true → calls_of client history.now ≡ calls.now }
    ensures other { result ≡ false → ¬ (calls_of client history.now ≡ calls.now) }
{
    let mut read = 0;
    for line in history {
        if line.client != client {
            continue;
        }
        if !is_of_next(line, calls, read) {
            return false;
        }
        read += 1;
    }
    read == calls.len()
}

/// Reads each line of a history with the next call of its client's pass, and notes how many of these are read, in a table that has 0 of each client.
/// Answers the client of the first line that isn't of that call, if there is one.
fn first_that_differs<D: DeskName>(
    passes: &[Pass<D>],
    numbers: &[usize],
    read: &mut [usize],
    history: &[Line],
) -> Option<u16>
    requires long { (length numbers.now ≡ 65536) × (length read.old ≡ 65536) }
    requires are { AreNumbers (map (λ pass. (pass.client, pass.calls.items)) passes.now) numbers.now }
    requires none { (client : ℕ) → get_or read.old client 0 ≡ 0 }
    ensures long { length read.new ≡ 65536 }
    ensures read { result ≡ None → AreRead (map (λ pass. (pass.client, pass.calls.items)) passes.now) history.now numbers.now read.new }
    ensures others { result ≡ None → All (IsOfPass (map (λ pass. (pass.client, pass.calls.items)) passes.now)) history.now }
    ensures differs { IfSome result (λ client. Differs (map (λ pass. (pass.client, pass.calls.items)) passes.now) history.now client) }
{
    for line in history {
        let client = usize::from(line.client);
        let number = numbers[client];
        if number == 0 {
            return Some(line.client);
        }
        if !is_of_next(line, passes[number - 1].calls(), read[client]) {
            return Some(line.client);
        }
        read[client] += 1;
    }
    None
}

/// Whether a pass lists the calls of its client. Where it is the one that its client's number is of, its calls were read.
fn lists_calls<D: DeskName>(pass: &Pass<D>, is_read: bool, read: usize, history: &[Line]) -> bool
    requires { is_read ≡ true → (read ≤ length pass.now.calls.items) × (calls_of pass.now.client history.now ≡ take read pass.now.calls.items) }
    ensures same { result ≡ true → ListsCalls history.now (pass.now.client, pass.now.calls.items) }
    ensures other { result ≡ false → ¬ ListsCalls history.now (pass.now.client, pass.now.calls.items) }
{
    if is_read {
        read == pass.calls().len()
    } else {
        has_calls(history, pass.client(), pass.calls())
    }
}

/// The client of the first pass that lists other calls than a history has, if there is one.
fn first_that_lists_others<D: DeskName>(
    passes: &[Pass<D>],
    numbers: &[usize],
    read: &[usize],
    history: &[Line],
) -> Option<u16>
    requires long { (length numbers.now ≡ 65536) × (length read.now ≡ 65536) }
    requires read { AreRead (map (λ pass. (pass.client, pass.calls.items)) passes.now) history.now numbers.now read.now }
    ensures all { result ≡ None → All (ListsCalls history.now) (map (λ pass. (pass.client, pass.calls.items)) passes.now) }
    ensures differs { IfSome result (λ client. ListsOthers (map (λ pass. (pass.client, pass.calls.items)) passes.now) history.now client) }
{
    for (index, pass) in passes.iter().enumerate() {
        let client = usize::from(pass.client());
        if !lists_calls(pass, numbers[client] == index + 1, read[client], history) {
            return Some(pass.client());
        }
    }
    None
}

/// A client whose calls in a history aren't those that its pass lists, if there is one. Each line is read once.
pub(crate) fn first_cause<D: DeskName>(
    passes: &[Pass<D>],
    numbers: &mut Numbers,
    history: &[Line],
) -> Option<u16>
    requires { AreNumbers (map (λ pass. (pass.client, pass.calls.items)) passes.now) numbers.old.passes.items }
    ensures none { result ≡ None → IsOf (map (λ pass. (pass.client, pass.calls.items)) passes.now) history.now }
    ensures differs { IfSome result (λ client. Differs (map (λ pass. (pass.client, pass.calls.items)) passes.now) history.now client) }
{
    let Numbers {
        passes: table,
        read,
        ..
    } = numbers;
    read.fill(0);
    match first_that_differs(passes, table.as_slice(), read.as_mut_slice(), history) {
        None => first_that_lists_others(passes, table.as_slice(), read.as_slice(), history),
        found => found,
    }
}
