//! The lines that name an instance.

ghost use Rattle.std.specs.Prelude.{◌≡◌, ◌++◌, map, OnOk};
ghost use Rattle.std.specs.List.{range_with_len};
ghost use Rattle.npp_frac.specs.Wide.{value_of_wide};
ghost use Rattle.npp_net.specs.Network.{toll_count, ceiling_of};
ghost use Rattle.npp_tree.specs.Items.{item_of};
ghost use Rattle.npp_tree.specs.Lines.{instance_lines};
ghost use Rattle.npp_tree.specs.declared.item.Item.TheVariants as item;
ghost use Rattle.npp_report.specs.Lines.{item_line, text_of};
ghost use Rattle.npp_cert_text.specs.Form.{HasLine};

use npp_cert_text::print_line;
use npp_frac::Frac128;
use npp_net::{Instance, Memory, TollId};
use npp_tree::Item;
use std::alloc::Global;

/// The sizes of the instance and the ceiling of each toll arc, at the end of a text.
pub(crate) fn write_instance(
    alloc: Global,
    text: &mut Vec<u8>,
    instance: &Instance,
) -> Result<(), Memory>
    ensures { OnOk result (text.new.items ≡ text.old.items ++ text_of (instance_lines instance.now)) }
{
    let sizes = Item::InstanceIs {
        nodes: instance.nodes(),
        arcs: instance.arcs().len() as u32,
        tolls: instance.tolls(),
        commodities: instance.commodities().len() as u32,
    };
    write_line(alloc, text, &sizes)?;
    write_limits(alloc, text, instance)
}

/// The ceiling of each toll arc.
fn write_limits(alloc: Global, text: &mut Vec<u8>, instance: &Instance) -> Result<(), Memory>
    ensures { OnOk result (text.new.items ≡ text.old.items
        ++ text_of (map (λ a. item.Limit a (ceiling_of instance.now.arcs a)) (range_with_len 0 (toll_count instance.now.arcs)))) }
{
    for toll in 0..instance.tolls() {
        let limit = Item::Limit {
            toll,
            ceiling: instance.ceiling(TollId(toll)),
        };
        write_line(alloc, text, &limit)?;
    }
    Ok(())
}

/// The line of an item, with its line feed.
fn write_line(alloc: Global, text: &mut Vec<u8>, item: &Item<Frac128>) -> Result<(), Memory>
    requires { HasLine (item_of value_of_wide item.now) }
    ensures { OnOk result (text.new.items ≡ text.old.items ++ item_line (item_of value_of_wide item.now)) }
{
    let line = print_line(alloc, item)?;
    text.extend_from_slice(&line)?;
    text.push(b'\n')?;
    Ok(())
}
