//! The lines that say to the library which growths it is to refuse.

/// Which growths are refused while a call is made.
#[derive(Clone, Copy)]
pub(crate) enum Refused {
    /// The one whose number the library was given, counted from the line on.
    One,
    /// All.
    All,
    /// None.
    Nothing,
}

/// From here on the library refuses these.
pub(crate) fn refuse(rt: &impl Print, refused: Refused) {
    let line = match refused {
        Refused::One => "refuse one",
        Refused::All => "refuse all",
        Refused::Nothing => "refuse none",
    };
    let _ = println!(rt; "{line}");
}
