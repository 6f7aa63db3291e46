//! The item of a line.

ghost use Rattle.std.specs.Prelude.{◌≡◌, IfOk, IfSome, Some, option_map};
ghost use Rattle.npp_frac.specs.Wide.{value_of_wide};
ghost use Rattle.npp_tree.specs.Items.{item_of, HasShortLists};
ghost use Rattle.npp_frac.specs.Rational.{Rational};
ghost use Rattle.npp_cert_text.specs.Form.{IsLineOf};
ghost use Rattle.npp_cert_text.specs.Said.{Reads};
ghost use Rattle.npp_cert_text.specs.Taking.{by_word, form_of};
ghost use Rattle.npp_cert_text.specs.Reading.{item_in, line_forms, evidence_forms, tree_forms};

use crate::MAX_LINE;
use crate::fields::Fields;
use crate::forms::{
    basic, conflict, cover, cuts, dual, farkas, free, header, instance, inverse, limit, lower,
    multiplier, no_inverse, opened, pair, path, round, split, status_line, step, toll, upper,
    width,
};
use crate::words::is_word;
use npp_frac::Frac128;
use npp_net::Memory;
use npp_tree::Item;
use std::alloc::Global;

/// The item that a line says, without its line feed, or None where it is the line of no item.
pub fn read_line(alloc: Global, line: &[u8]) -> Result<Option<Item<Frac128>>, Memory>
    ensures found { IfOk result (λ found. IfSome found (λ i. IsLineOf line.now (item_of value_of_wide i))) }
    ensures only { (i : Item Rational) → IsLineOf line.now i → IfOk result (λ found. option_map (item_of value_of_wide) found ≡ Some i) }
    ensures exact { IfOk result (λ found. option_map (item_of value_of_wide) found ≡ item_in line.now) }
    ensures lists { IfOk result (λ found. IfSome found (λ i. HasShortLists i)) }
{
    read(alloc, line)
}

/// The item that a line says, by the definition alone.
#[tactic(auto, unfolding(crate::specs::Reading::item_in))]
fn read(alloc: Global, line: &[u8]) -> Result<Option<Item<Frac128>>, Memory>
    ensures { IfOk result (λ found. option_map (item_of value_of_wide) found ≡ item_in line.now) }
{
    if line.len() > MAX_LINE {
        return Ok(None);
    }
    let mut fields = Fields::of(line);
    let Some(item) = item(alloc, &mut fields)? else {
        return Ok(None);
    };
    if fields.is_empty() {
        Ok(Some(item))
    } else {
        Ok(None)
    }
}

/// What the first fields say.
fn item(alloc: Global, fields: &mut Fields) -> Result<Option<Item<Frac128>>, Memory>
    ensures { IfOk result (λ found. Reads (item_of value_of_wide) (by_word line_forms) fields.old found fields.new) }
{
    match fields.field() {
        Some(word) => head(alloc, word, fields),
        None => Ok(None),
    }
}

/// What follows the first word of a line.
fn head(alloc: Global, word: &[u8], fields: &mut Fields) -> Result<Option<Item<Frac128>>, Memory>
    ensures { IfOk result (λ found. Reads (item_of value_of_wide) (form_of line_forms word.now) fields.old found fields.new) }
{
    if is_word(word, b"npp-certificate") {
        return Ok(header(fields));
    }
    if is_word(word, b"status") {
        return Ok(status_line(fields));
    }
    if is_word(word, b"width") {
        return Ok(width(fields));
    }
    if is_word(word, b"lower") {
        return Ok(lower(fields));
    }
    if is_word(word, b"upper") {
        return Ok(upper(fields));
    }
    if is_word(word, b"opened") {
        return Ok(opened(fields));
    }
    if is_word(word, b"instance") {
        return Ok(instance(fields));
    }
    if is_word(word, b"limit") {
        return Ok(limit(fields));
    }
    if is_word(word, b"toll") {
        return Ok(toll(fields));
    }
    if is_word(word, b"path") {
        return path(alloc, fields);
    }
    evidence(alloc, word, fields)
}

/// What follows a word of the covers, the cuts or the tree.
fn evidence(
    alloc: Global,
    word: &[u8],
    fields: &mut Fields,
) -> Result<Option<Item<Frac128>>, Memory>
    ensures { IfOk result (λ found. Reads (item_of value_of_wide) (form_of evidence_forms word.now) fields.old found fields.new) }
{
    if is_word(word, b"cover") {
        return Ok(cover(fields));
    }
    if is_word(word, b"start") {
        return Ok(Some(Item::Start));
    }
    if is_word(word, b"step") {
        return Ok(step(fields));
    }
    if is_word(word, b"free") {
        return free(alloc, fields);
    }
    if is_word(word, b"cuts") {
        return Ok(cuts(fields));
    }
    if is_word(word, b"conflict") {
        return Ok(conflict(fields));
    }
    if is_word(word, b"pair") {
        return pair(alloc, fields);
    }
    if is_word(word, b"round") {
        return Ok(round(fields));
    }
    if is_word(word, b"y") {
        return Ok(multiplier(fields));
    }
    tree(alloc, word, fields)
}

/// What follows a word of the tree.
fn tree(alloc: Global, word: &[u8], fields: &mut Fields) -> Result<Option<Item<Frac128>>, Memory>
    ensures { IfOk result (λ found. Reads (item_of value_of_wide) (form_of tree_forms word.now) fields.old found fields.new) }
{
    if is_word(word, b"tree") {
        return Ok(Some(Item::Tree));
    }
    if is_word(word, b"open") {
        return Ok(Some(Item::Open));
    }
    if is_word(word, b"basic") {
        return Ok(basic(fields));
    }
    if is_word(word, b"dual") {
        return Ok(dual(fields));
    }
    if is_word(word, b"farkas") {
        return Ok(farkas(fields));
    }
    if is_word(word, b"inverse") {
        return Ok(inverse(fields));
    }
    if is_word(word, b"none") {
        return Ok(no_inverse(fields));
    }
    if is_word(word, b"leaf") {
        return Ok(Some(Item::Leaf));
    }
    if is_word(word, b"split") {
        return split(alloc, fields);
    }
    if is_word(word, b"end") {
        return Ok(Some(Item::End));
    }
    Ok(None)
}
