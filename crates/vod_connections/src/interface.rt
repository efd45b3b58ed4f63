//! What modules show to those that instantiate them.
ghost use Rattle.std.specs.Prelude.{◌≡◌, ◌++◌, map, IfOk, OnOk};
ghost use Rattle.std.specs.Option.{option_copied};
ghost use Rattle.vod_connections.specs.Interfaces.{modules_in, all_modules, interface_of, module_name, interface_at, found};

use std::alloc::Global;
use vod_names::{Declaration, Kind, Memory, Names, parameters, ports};
use vod_tree::{Module, SourceItem, let_go};

/// The ports of a module, and the parameters that an instance of it may set, in order.
#[derive(Drop)]
pub struct Interface<'s> {
    pub ports: Names<'s>,
    pub parameters: Names<'s>,
}

/// What each module of a source shows, by its name.
#[derive(Drop)]
pub struct Interfaces<'s> {
    pub names: Names<'s>,
    pub list: Vec<Interface<'s>>,
}

/// What the modules of a source show.
pub(crate) fn interfaces_of<'s>(
    alloc: Global,
    parts: &'s [SourceItem],
) -> Result<Interfaces<'s>, Memory>
    ensures { IfOk result (λ t. (t.names ≡ map module_name (all_modules parts.now)) × (t.list.items ≡ map interface_of (all_modules parts.now))) }
{
    let mut interfaces = Interfaces {
        names: Names::new(alloc),
        list: Vec::new(alloc),
    };
    for part in parts {
        add_part(alloc, &mut interfaces, part)?;
    }
    Ok(interfaces)
}

fn add_part<'s>(
    alloc: Global,
    interfaces: &mut Interfaces<'s>,
    part: &'s SourceItem,
) -> Result<(), Memory>
    ensures { OnOk result ((interfaces.new.names ≡ interfaces.old.names ++ map module_name (modules_in part.now)) × (interfaces.new.list.items ≡ interfaces.old.list.items ++ map interface_of (modules_in part.now))) }
{
    match part {
        SourceItem::Directive(_) => Ok(()),
        SourceItem::Module(module) => {
            let interface = interface_of(alloc, module)?;
            match interfaces.list.push(interface) {
                Ok(()) => {}
                Err(_) => return Err(Memory),
            }
            interfaces
                .names
                .declare(&module.name, Declaration::plain(Kind::Listed))
        }
    }
}

// What a module shows.
fn interface_of<'s>(alloc: Global, module: &'s Module) -> Result<Interface<'s>, Memory>
    ensures { IfOk result (λ i. i ≡ interface_of «module».now) }
{
    let ports = ports(alloc, module)?;
    match parameters(alloc, module) {
        Ok(parameters) => Ok(Interface { ports, parameters }),
        Err(error) => {
            let_go(ports);
            Err(error)
        }
    }
}

/// What the first module of a name shows.
pub(crate) fn find<'a, 's>(interfaces: &'a Interfaces<'s>, name: &[u8]) -> Option<&'a Interface<'s>>
    ensures { option_copied result ≡ found interfaces.now.names interfaces.now.list.items name.now }
{
    interface_at(interfaces.list.as_slice(), interfaces.names.number_of(name))
}

fn interface_at<'a, 's>(
    list: &'a [Interface<'s>],
    number: Option<usize>,
) -> Option<&'a Interface<'s>>
    ensures { option_copied result ≡ interface_at list.now number }
{
    match number {
        Some(number) => list.get(number),
        None => None,
    }
}
