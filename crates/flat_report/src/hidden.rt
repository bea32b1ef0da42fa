//! Functions that are left out of a report, by their names.

ghost use Rattle.std.specs.Prelude.{◌≡◌, map, string_bytes};
ghost use Rattle.flat_report.specs.Hidden.{is_hidden as spec};

/// Whether a name is among the hidden ones.
pub fn is_hidden(hidden: &[String], name: &[u8]) -> bool
    ensures { result ≡ spec (map string_bytes hidden.now) name.now }
{
    for other in hidden {
        if other.as_bytes() == name {
            return true;
        }
    }
    false
}
