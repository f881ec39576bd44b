ghost use Rattle.std.specs.Prelude.{◌≡◌, ◌<◌, ℕ, true, List, ◌∷◌, ◌++◌, [], IfSome, MatchOption, length};
ghost use Rattle.ppp_mark.specs.declared.mark.Mark.{Mark};
ghost use Rattle.ppp_mark.specs.Lines.{lines_of};
ghost use Rattle.ppp_mark.specs.Table.{name_of, stands_in};
ghost use Rattle.ppp_report.specs.Report.{AreFit, mark_word, target_of};

use crate::kinds::kind_of;
use crate::number::{last_number, number_then};
use ppp_mark::lines::place;
use ppp_mark::{LogName, Mark};

// The kind whose name the text begins with, where a space follows, and what follows that.
fn named<'a>(text: &'a [u8], of: &LogName) -> Option<(u8, &'a [u8])>
    ensures sound { IfSome result (λ r. (stands_in (target_of of.now) r.0 ≡ true) × (text.now ≡ name_of r.0 ++ 32 ∷ r.1.now)) }
    ensures found { (k : ℕ) (rest : List ℕ) → stands_in (target_of of.now) k ≡ true → text.now ≡ name_of k ++ 32 ∷ rest
        → MatchOption result ⊥ (λ r. (r.0 ≡ k) × (r.1.now ≡ rest)) }
{
    let end = place(text, b' ');
    if end == text.len() {
        return None;
    }
    let Some(kind) = kind_of(&text[..end], of) else {
        return None;
    };
    Some((kind, &text[end + 1..]))
}

/// The mark that the text's first line is, where it is one of such an object's, and what follows the line.
pub fn first_mark<'a>(text: &'a [u8], of: &LogName) -> Option<(Mark, &'a [u8])>
    ensures fit { IfSome result (λ r. AreFit of.now (r.0 ∷ [])) }
    ensures lines { IfSome result (λ r. lines_of text.now ≡ mark_word r.0 ∷ lines_of r.1.now) }
    ensures shorter { IfSome result (λ r. length r.1.now < length text.now) }
    ensures found { (m : Mark) (others : List (List ℕ)) → AreFit of.now (m ∷ []) → lines_of text.now ≡ mark_word m ∷ others
        → MatchOption result ⊥ (λ r. (r.0 ≡ m) × (lines_of r.1.now ≡ others)) }
{
    let Some((time, left)) = number_then(text, 18_446_744_073_709_551_615) else {
        return None;
    };
    let Some((kind, left)) = named(left, of) else {
        return None;
    };
    let Some((x, left)) = number_then(left, 255) else {
        return None;
    };
    let Some((y, left)) = number_then(left, 65_535) else {
        return None;
    };
    let Some((z, rest)) = last_number(left, 4_294_967_295) else {
        return None;
    };
    let mark = Mark {
        kind,
        x: x as u8,
        y: y as u16,
        z: z as u32,
        time,
    };
    Some((mark, rest))
}
