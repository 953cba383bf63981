//! What holds of all proofs. The functions do nothing: their contracts are the laws.
ghost use Rattle.proof_text.specs.Laws.{OnlyWritableProofs, ProofsAgain};

/// A writable proof that was printed is read again, whatever follows that is no part of it.
pub fn proofs_again()
    ensures { ProofsAgain }
{}

/// What is read as a proof is a writable one.
pub fn only_writable_proofs()
    ensures { OnlyWritableProofs }
{}
