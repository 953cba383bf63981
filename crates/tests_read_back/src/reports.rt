//! Whether bytes are a report.
ghost use Rattle.std.specs.Prelude.{◌↔◌, IfOk, IsTrue};
ghost use Rattle.tests_read_back.specs.Reports.{IsReport};

use report_json::read_either;
use std::alloc::{AllocError, Global};
use value_text::ReadFault;

/// Whether some writable report has these lines or this JSON text, from which it is then read back.
pub fn is_report(alloc: Global, bytes: &[u8]) -> Result<bool, AllocError>
    ensures { IfOk result (λ answer. IsTrue answer ↔ IsReport bytes.now) }
{
    match read_either(alloc, bytes) {
        Ok(_) => Ok(true),
        Err(ReadFault::Form) => Ok(false),
        Err(ReadFault::Memory) => Err(AllocError),
    }
}
