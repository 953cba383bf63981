//! Sources whose functions are too long.
ghost use Rattle.std.specs.Prelude.{◌≡◌};
ghost use Rattle.gillian_core.specs.Compiled.{limit_refusal};

use gil_text::{Refused, RefusedKind};
use source_language::TooMany;

/// What a function of too many commands is refused as.
pub(crate) fn limit_refused(too_many: TooMany) -> Refused
    ensures { result ≡ limit_refusal too_many }
{
    match too_many {
        TooMany::Limit(at) => Refused {
            at,
            kind: RefusedKind::Limit,
        },
        TooMany::Memory => Refused {
            at: 0,
            kind: RefusedKind::Memory,
        },
    }
}
