//! Laws of lines and texts, which callers may cite. The functions do nothing.

ghost use Rattle.std.specs.Prelude.{◌≡◌, ◌≤◌, ℕ, List, map, All, Some};
ghost use Rattle.npp_frac.specs.Rational.{Rational};
ghost use Rattle.npp_tree.specs.declared.item.Item.{Item};
ghost use Rattle.npp_report.specs.Lines.{text_of};
ghost use Rattle.npp_cert_text.specs.Form.{HasLine, IsInForm, IsLineOf, entries};
ghost use Rattle.npp_cert_text.specs.Reading.{item_in};
ghost use Rattle.npp_cert_text.specs.Lines.{text_items};

/// The line of an item says the item, and a line that says an item is its line.
pub fn line_and_item_are_inverse()
    ensures read { (bytes : List ℕ) (i : Item Rational) → IsLineOf bytes i → item_in bytes ≡ Some i }
    ensures written { (bytes : List ℕ) (i : Item Rational) → item_in bytes ≡ Some i → IsLineOf bytes i }
{}

/// The lines of the text of some items say these items, and a text whose lines say items is their text. So a list of
/// items has at most one text.
pub fn text_and_items_are_inverse()
    ensures read { (items : List (Item Rational)) → All HasLine items → text_items (text_of items) ≡ map (λ i. Some i) items }
    ensures lines { (bytes : List ℕ) (items : List (Item Rational)) → text_items bytes ≡ map (λ i. Some i) items → All HasLine items }
    ensures written { (bytes : List ℕ) (items : List (Item Rational)) → text_items bytes ≡ map (λ i. Some i) items → bytes ≡ text_of items }
{}

/// An item in form has a line where its list has at most 2,000 entries: such a line is short enough.
pub fn short_lists_have_lines()
    ensures { (i : Item Rational) → IsInForm i → entries i ≤ 2000 → HasLine i }
{}
