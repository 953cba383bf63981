//! The top call over streams in memory.
ghost use Rattle.std.specs.Prelude.{◌≡◌, ◌⊎◌, ◌≤◌, Some, false, length};
ghost use Rattle.gil_io.specs.SureSink.{SureSinkState};
ghost use Rattle.gillian_words.specs.Asked.{AskFor};
ghost use Rattle.gillian_words.specs.Line.{spelled};
ghost use Rattle.gillian_words.specs.Tasks.{PureRequest, reads_source};
ghost use Rattle.gillian_core.specs.Accepted.{IsAccepted};
ghost use Rattle.gillian_core.specs.Outcomes.{Ends, IsReported, call_of, most_bytes};

use crate::status::Status;
use crate::top::gillian;
use gil_io::{SureSink, SureSource};
use rewrite_book::RuleBook;
use std::alloc::Global;

/// Does what `gillian` does, over a source that never fails and a sink that fails only where its room is used up. Words that
/// fit and an accepted text have a report there, want of memory and want of room aside, and so has a sweep, whatever the source.
pub fn gillian_in_memory(
    alloc: Global,
    words: &Vec<String>,
    rules: &RuleBook,
    source: &mut SureSource,
    out: &mut SureSink,
) -> Status
    ensures accepted { (q : PureRequest) → AskFor (spelled words.now) q → IsAccepted q.task source.old → length source.old ≤ most_bytes
        → IsReported result ⊎ ((result ≡ Status.WriteFault) × (out.new.room ≤ length out.new.taken)) ⊎ (result ≡ Status.Memory) }
    ensures unread { (q : PureRequest) → AskFor (spelled words.now) q → reads_source q.task ≡ false
        → IsReported result ⊎ ((result ≡ Status.WriteFault) × (out.new.room ≤ length out.new.taken)) ⊎ (result ≡ Status.Memory) }

    // What is written with each status is what `gillian` writes.
    ensures ends { Ends (call_of (λ source. Some source) (λ _. 0) (λ (sink : SureSinkState). Some sink.taken) (λ sink. sink.faults)
        (λ sink. Some sink.room) (spelled words.now) source.old source.new out.old out.new) result }
{
    gillian(alloc, words, rules, source, out)
}
