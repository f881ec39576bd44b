ghost use Rattle.std.specs.Prelude.{◌≡◌, ◌==◌, ◌∷◌, ◌<◌, length, IfSome};
ghost use Rattle.std.specs.List.{slice_split};
ghost use Rattle.std.specs.Option.{option_copied};
ghost use Rattle.ppp_base.specs.Parts.{parts_of};

/// What stands before the first separator, and what stands behind it, if there is one.
pub fn first_part(octets: &[u8], separator: u8) -> (&[u8], Option<&[u8]>)
    ensures parts { slice_split (λ octet. octet == separator) octets.now ≡ result.0.now ∷ parts_of separator (option_copied result.1) }
    ensures shorter { IfSome result.1 (λ rest. length rest.now < length octets.now) }
{
    for (i, octet) in octets.iter().enumerate() {
        if *octet == separator {
            return (&octets[..i], Some(&octets[i + 1..]));
        }
    }
    (octets, None)
}
