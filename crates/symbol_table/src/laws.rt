//! A law of the table, which holds without any call.
ghost use Rattle.symbol_table.specs.Laws.{TextsStay};

/// A law: a name keeps its text as long as all its numbers are in use.
pub fn texts_stay()
    ensures { TextsStay }
{}
