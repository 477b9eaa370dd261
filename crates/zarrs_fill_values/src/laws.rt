//! What follows from the definitions of names and fill values. The functions do nothing: each is
//! its contract.
ghost use Rattle.zarrs_fill_values.specs.Laws.{ShownIsRead, ReadIsShown, ReadFits, NameIsRead};

/// What is shown of a fill value is read again as the same bytes, whatever its bits are: each NaN,
/// and each sign of zero.
pub fn fill_values_are_read_again()
    ensures law { ShownIsRead }
{}

/// Each fill value that is read can be shown. So what is shown is one text for each value.
pub fn fill_values_are_shown()
    ensures law { ReadIsShown }
{}

/// The bytes of a fill value that is read are a fill value of the type of chunks.
pub fn fill_values_fit()
    ensures law { ReadFits }
{}

/// How a type is named is read as the type.
pub fn names_are_read_again()
    ensures law { NameIsRead }
{}
