//! Laws that a user of sessions counts on.
ghost use Rattle.ctf_laws.specs.PlainLaws.{NumbersAreGivenOnce, ParentsStay, PublicationsStay};

/// No slot number is given twice before a reset.
pub fn numbers_are_given_once()
    ensures { NumbersAreGivenOnce }
{}

/// A publication stays as it was until its owner withdraws it, whatever anyone does.
pub fn publications_stay()
    ensures { PublicationsStay }
{}

/// A slot's parent stays as it was at the import, until another parent is imported.
pub fn parents_stay()
    ensures { ParentsStay }
{}
