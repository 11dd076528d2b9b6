//! Comparing a name with many texts, of which many may be one text that nearly is the name.

ghost use Rattle.std.specs.Prelude.{◌≡◌, true, false, bytes_eq};

use pm_text::Items;

/// Whether two texts differ at a place.
fn differ_at(text: &[u8], name: &[u8], at: usize) -> bool
    ensures { result ≡ true → bytes_eq text.now name.now ≡ false }
{
    if at < text.len() && at < name.len() {
        text[at] != name[at]
    } else {
        false
    }
}

/// Whether two texts differ at one of these places.
fn differ_at_one(text: &[u8], name: &[u8], places: &[usize]) -> bool
    ensures { result ≡ true → bytes_eq text.now name.now ≡ false }
{
    for at in places {
        if differ_at(text, name, *at) {
            return true;
        }
    }
    false
}

/// Whether two texts have another length, or differ at one of these places.
fn are_apart(text: &[u8], name: &[u8], places: &[usize]) -> bool
    ensures { result ≡ true → bytes_eq text.now name.now ≡ false }
{
    if text.len() == name.len() {
        differ_at_one(text, name, places)
    } else {
        true
    }
}

/// Whether a text is a name; these places are looked at first.
pub fn is_same_by(text: &[u8], name: &[u8], places: &[usize]) -> bool
    ensures { result ≡ bytes_eq text.now name.now }
{
    if are_apart(text, name, places) {
        return false;
    }
    text == name
}

/// Keeps where a text first differs from a name of its length. Without memory for it such texts are
/// compared as a whole.
fn keep_difference(text: &[u8], name: &[u8], places: &mut Items<usize>) {
    for at in 0..text.len() {
        if differ_at(text, name, at) {
            let _ = places.push(at);
            return;
        }
    }
}

/// Whether a text is a name, where earlier texts of the name's length differ from it at these places:
/// they are looked at first, and where one differs otherwise its place is added. So a text that
/// stands at many entries is compared as a whole once, until it is the name.
pub fn is_same(text: &[u8], name: &[u8], places: &mut Items<usize>) -> bool
    ensures { result ≡ bytes_eq text.now name.now }
{
    if are_apart(text, name, places.as_slice()) {
        return false;
    }
    if text == name {
        return true;
    }
    keep_difference(text, name, places);
    false
}
