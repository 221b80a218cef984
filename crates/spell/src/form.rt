// How much the own entries of a part of a text come to, by its form. Whoever counts a text before
// anything is written counts by these, and so does the test before they are put. A form is a number
// and no enum: up to 13 it is the kind of the part's last entry, 15 to 17 less 8 and less 4 are kinds,
// and kinds are told apart by ranges (document 01), so an enum would be turned into its number wherever
// it is used.
ghost use Rattle.std.specs.Prelude.{◌≡◌};
ghost use Rattle.spell.specs.Forms.{form_entries, form_bytes};

// How many entries a form has besides those of its parts.
pub fn own_entries(form: u16) -> u16
    ensures { result ≡ form_entries form }
{
    match form {
        0..=9 => 1,
        14 => 4,
        _ => 2,
    }
}

// How many bytes their records have. The record of form 1 has no number, those of 2 and 3 have one,
// and those of 4 and 5 two.
pub fn own_bytes(form: u16) -> u16
    ensures { result ≡ form_bytes form }
{
    match form {
        0..=5 => 4 + 2 * (form / 2),
        6..=9 => 6,
        10..=13 => 12,
        14 => 30,
        _ => 14,
    }
}
