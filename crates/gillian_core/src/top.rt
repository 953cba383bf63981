//! The top call.
ghost use Rattle.std.specs.Prelude.{◌≡◌, ◌⊎◌, ◌<◌, ◌++◌, ◌≤◌, ℕ, List, length, true, false, Some, IfOk, IfErr, IfSome};
ghost use Rattle.std.specs.Io.KnownBytes.{IsAtEnd};
ghost use Rattle.gil_io.specs.Faults.{FaultRose};
ghost use Rattle.gil_io.specs.Reading.{Takes};
ghost use Rattle.gil_io.specs.Writing.{IsUsedUp};
ghost use Rattle.gil_text.specs.declared.refused.Refused.{Refused};
ghost use Rattle.gillian_words.specs.Asked.{AskFor};
ghost use Rattle.gillian_words.specs.Line.{spelled};
ghost use Rattle.gillian_words.specs.Tasks.{PureRequest, reads_source};
ghost use Rattle.gillian_words.specs.View.{request_view};
ghost use Rattle.gillian_core.specs.Accepted.{IsAccepted};
ghost use Rattle.gillian_core.specs.Finishing.{Answers, Finishes, IsResponse, told};
ghost use Rattle.gillian_core.specs.Outcomes.{Ends, IsRefused, IsReported, IsRight, WordsFit, call_of, most_bytes};
ghost use Rattle.gillian_core.specs.Outputs.{PureOutput, output_status, output_text};
ghost use Rattle.gillian_core.specs.Refusals.{refusal_line};

use crate::rendering::{Response, output_response, refusal_response};
use crate::status::Status;
use crate::working::work;
use gil_io::{ReadEnd, Sink, Source, read_all, write_all};
use gillian_words::{Request, WordsFault, read_words, words_ask_for_one_thing};
use rewrite_book::RuleBook;
use std::alloc::{AllocError, Global};

/// The most bytes that a source text may have.
pub const MOST_BYTES: usize = 1_048_576;

/// The line that answers words that don't fit.
const USAGE_LINE: &str =
    "usage: gillian MODE LANG [--bound N] [--entry NAME] [--inputs LIST] [--json]\n";

/// What is written where the source has more bytes.
const REFUSED_SIZE: &str = "refused size\n";

/// Does what the words ask with the text that the source gives. The words are read first, then the source to its end, but for a sweep,
/// then the text; then the work is done and the whole output is built, and only then is the first byte written. The rules
/// may be any: what is answered is right whatever they are.
///
/// What the clauses say of bytes, they say of a source or a sink that tells them.
pub fn gillian<S: Source, K: Sink>(
    alloc: Global,
    words: &Vec<String>,
    rules: &RuleBook,
    source: &mut S,
    out: &mut K,
) -> Status
    // What is reported is right: where source and sink tell their bytes, the sink took the text of one output, a report in the form
    // that the words ask for, which is what they ask for and right for the bytes that the source gave.
    ensures right { IsReported result → IfSome (S.left source.old) (λ bytes. IfSome (K.taken out.old) (λ before. (q : PureRequest)
        × (o : PureOutput) × (K.taken out.new ≡ Some (before ++ output_text q.json o)) × IsRight (spelled words.now) bytes q o
        × (result ≡ output_status o))) }

    // 2: exactly where the words don't fit, and then the source isn't read.
    ensures words { result ≡ Status.Words → WordsFit (spelled words.now) → ⊥ }
    ensures unfit { (WordsFit (spelled words.now) → ⊥)
        → ((result ≡ Status.Words) ⊎ (result ≡ Status.WriteFault) ⊎ (result ≡ Status.Memory)) × (source.new ≡ source.old) }

    // 4 and 5: only where the count of that object rose in this call.
    ensures read_fault { result ≡ Status.ReadFault → FaultRose (S.faults source.old) (S.faults source.new) }
    ensures write_fault { result ≡ Status.WriteFault → FaultRose (K.faults out.old) (K.faults out.new) }

    // A sink that tells its room fails only when that is used up.
    ensures used_up { result ≡ Status.WriteFault → IsUsedUp (K.room out.new) (K.taken out.new) }

    // Words that fit, an accepted text within the size and no fault of the source give 0 or 1; want of memory and a fault of the sink
    // aside.
    ensures answered { (q : PureRequest) → AskFor (spelled words.now) q → IfSome (S.left source.old) (λ bytes. IsAccepted q.task bytes
        → length bytes ≤ most_bytes → (FaultRose (S.faults source.old) (S.faults source.new) → ⊥)
        → IsReported result ⊎ (result ≡ Status.WriteFault) ⊎ (result ≡ Status.Memory)) }

    // 7: exactly where the source gave one byte more than it may; a fault of the sink may stand in its place.
    ensures too_large { Takes (S.left source.old) (S.left source.new) (λ gave.
        (result ≡ Status.TooLarge → most_bytes < length gave)
        × (most_bytes < length gave → (result ≡ Status.TooLarge) ⊎ (result ≡ Status.WriteFault))) }

    // 3: exactly where the bytes are no accepted text, and then the first kind that applies is named. With 0 and 1 they are one,
    // by `right`.
    ensures text { result ≡ Status.Text → IfSome (S.left source.old) (λ bytes. IfSome (K.taken out.old) (λ before. (r : Refused)
        × (K.taken out.new ≡ Some (before ++ refusal_line r)) × IsRefused (spelled words.now) bytes r)) }

    // With 0, 1 and 3 the source was read to its end, where the words ask for something that is done with a text.
    ensures read { (q : PureRequest) → AskFor (spelled words.now) q → reads_source q.task ≡ true
        → IsReported result ⊎ (result ≡ Status.Text) → IsAtEnd (S.left source.new) }

    // Where they ask for what is done without, the source isn't read, and 0, 1, 5 and 6 are all that comes.
    ensures unread { (q : PureRequest) → AskFor (spelled words.now) q → reads_source q.task ≡ false
        → (IsReported result ⊎ (result ≡ Status.WriteFault) ⊎ (result ≡ Status.Memory)) × (source.new ≡ source.old) }

    // Nothing is written with 4 and 6.
    ensures nothing { (result ≡ Status.ReadFault) ⊎ (result ≡ Status.Memory) → K.taken out.new ≡ K.taken out.old }

    // What is written with each status, and of which text a part is written with 5.
    ensures ends { Ends (call_of S.left S.faults K.taken K.faults K.room (spelled words.now) source.old source.new out.old out.new)
        result }
{
    words_ask_for_one_thing();
    respond(alloc, words, rules, source, out)
}

/// Reads the words, the source and the text, and answers.
fn respond<S: Source, K: Sink>(
    alloc: Global,
    words: &Vec<String>,
    rules: &RuleBook,
    source: &mut S,
    out: &mut K,
) -> Status
    ensures unfit { (WordsFit (spelled words.now) → ⊥)
        → ((result ≡ Status.Words) ⊎ (result ≡ Status.WriteFault) ⊎ (result ≡ Status.Memory)) × (source.new ≡ source.old) }
    ensures too_large { Takes (S.left source.old) (S.left source.new) (λ gave.
        (result ≡ Status.TooLarge → most_bytes < length gave)
        × (most_bytes < length gave → (result ≡ Status.TooLarge) ⊎ (result ≡ Status.WriteFault))) }
    ensures unread { (q : PureRequest) → AskFor (spelled words.now) q → reads_source q.task ≡ false
        → (IsReported result ⊎ (result ≡ Status.WriteFault) ⊎ (result ≡ Status.Memory)) × (source.new ≡ source.old) }
    ensures ends { Ends (call_of S.left S.faults K.taken K.faults K.room (spelled words.now) source.old source.new out.old out.new)
        result }
{
    words_ask_for_one_thing();
    let request = match read_words(alloc, words) {
        Ok(request) => request,
        Err(WordsFault::Refused) => return finish_line(out, USAGE_LINE, Status::Words),
        Err(WordsFault::Memory) => return Status::Memory,
    };
    if !request.task.reads_source() {
        return answer(alloc, request, rules, &[], out);
    }
    match read_all(alloc, source, MOST_BYTES) {
        Ok(bytes) => answer(alloc, request, rules, &bytes, out),
        Err(ReadEnd::ReadFault) => Status::ReadFault,
        Err(ReadEnd::TooLarge) => finish_line(out, REFUSED_SIZE, Status::TooLarge),
        Err(ReadEnd::Memory) => Status::Memory,
    }
}

/// Answers the whole text.
fn answer<K: Sink>(
    alloc: Global,
    request: Request,
    rules: &RuleBook,
    bytes: &[u8],
    out: &mut K,
) -> Status
    ensures { Answers (request_view request) bytes.now (told K.taken K.faults K.room out.old out.new) result }
{
    match response_to(alloc, request, rules, bytes) {
        Ok(response) => finish(out, &response.text, response.status),
        Err(_) => Status::Memory,
    }
}

/// Writes the line, and ends with the status if it is written.
fn finish_line<K: Sink>(out: &mut K, line: &str, status: Status) -> Status
    ensures { Finishes (told K.taken K.faults K.room out.old out.new) line.now status result }
{
    finish(out, line.as_bytes(), status)
}

/// Writes the text, and ends with the status if it is written.
fn finish<K: Sink>(out: &mut K, text: &[u8], status: Status) -> Status
    ensures { Finishes (told K.taken K.faults K.room out.old out.new) text.now status result }
{
    match write_all(out, text) {
        Ok(()) => status,
        Err(_) => Status::WriteFault,
    }
}

/// The response to a text: of what is to be written, or of the refusal.
fn response_to(
    alloc: Global,
    request: Request,
    rules: &RuleBook,
    bytes: &[u8],
) -> Result<Response, AllocError>
    ensures { IfOk result (λ response. IsResponse (request_view request) bytes.now response.status response.text.items) }
{
    let Request { task, json } = request;
    match work(alloc, task, rules, bytes) {
        Ok(output) => output_response(alloc, &output, json),
        Err(refused) => refusal_response(alloc, refused),
    }
}
