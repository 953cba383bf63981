//! What holds of all data. The function does nothing: its contract is the law.
ghost use Rattle.json_parts.specs.Laws.{KeptDataAgain};

/// Data that their compact text keeps are read again.
pub fn kept_data()
    ensures { KeptDataAgain }
{}
