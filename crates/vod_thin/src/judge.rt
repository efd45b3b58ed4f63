//! The rules on names.
ghost use Rattle.std.specs.Prelude.{◌≡◌, ◌++◌, ◌∷◌, [], ℕ, List, map, option_map, length, drop, IfOk, OnOk};
ghost use Rattle.std.specs.Borrow.{Bor};
ghost use Rattle.vod_thin_syntax.specs.Limit.{sooner};
ghost use Rattle.vod_token.specs.Nesting.{slice_of};
ghost use Rattle.vod_thin_syntax.specs.declared.syntax.Item.TheVariants as item;
ghost use Rattle.vod_thin_syntax.specs.View.{name_of, mark_of, marks_of, marks_in, port_of, item_of, module_of};
ghost use Rattle.vod_thin.specs.Signals.{clocks, texts, port_kind, names_in, is_input, is_net, is_register, signals_of};
ghost use Rattle.vod_thin.specs.Rules.{least, place_if, places_where, is_readable, faults};
ghost use Rattle.vod_thin.specs.Tables.{tables_of, fault_at, with_always, declares_wrongly, assigns_wrongly, differs, waits_wrongly, updates_wrongly, reads_wrongly, read_places, port_places, item_places, with_signal, with_port, first_of, with_item, with_ports, with_items, all_port_places, all_item_places, with_uses, with_all_uses, no_tables};
ghost use Rattle.vod_thin.specs.View.{first_entries, distinct};

use crate::let_go;
use crate::names::{Kind, Names, Signals};
use crate::text::Text;
use std::alloc::{AllocError, Global};
use vod_thin_syntax::{Direction, Item, Module, Port, Span, word_of};
use vod_token::Token;

/// The names of a module: the clocks and targets of all its items; and behind some of its ports and items, what these
/// declare and assign, and the first clock.
#[derive(Drop)]
pub(crate) struct Judge<'s> {
    pub clocks: Names<'s>,
    pub assigned: Names<'s>,
    pub signals: Signals<'s>,
    pub driven: Names<'s>,
    pub updated: Names<'s>,
    pub clock: Option<&'s [u8]>,
}

/// The lesser of two places, where there are any.
pub(crate) fn sooner(a: Option<u32>, b: Option<u32>) -> Option<u32>
    ensures { result ≡ sooner a b }
{
    match (a, b) {
        (Some(p), Some(q)) => Some(p.min(q)),
        (Some(p), None) => Some(p),
        (None, _) => b,
    }
}

// Where a token begins, if it breaks a rule.
fn place_if(breaks: bool, token: Token) -> Option<u32>
    ensures { result ≡ fault_at breaks token.start }
{
    if breaks { Some(token.start) } else { None }
}

fn is_net(kind: Option<Kind>) -> bool
    ensures { result ≡ is_net kind }
{
    matches!(kind, Some(Kind::Output | Kind::Wire))
}

fn is_input(kind: Option<Kind>) -> bool
    ensures { result ≡ is_input kind }
{
    matches!(kind, Some(Kind::Input))
}

fn is_register(kind: Option<Kind>) -> bool
    ensures { result ≡ is_register kind }
{
    matches!(kind, Some(Kind::Register(_)))
}

// Whether an expression may read what was declared so, is or isn't a clock, and was or wasn't assigned before.
fn is_readable(kind: Option<Kind>, clock: bool, driven: bool) -> bool
    ensures { result ≡ is_readable kind clock driven }
{
    match kind {
        None => false,
        Some(Kind::Input) => !clock,
        Some(Kind::Output | Kind::Wire) => driven,
        Some(Kind::Register(_)) => true,
    }
}

fn port_kind(direction: Direction) -> Kind
    ensures { result ≡ port_kind direction }
{
    match direction {
        Direction::Input => Kind::Input,
        Direction::Output => Kind::Output,
    }
}

// Whether there is a first clock and a name is another.
fn differs(first: Option<&[u8]>, name: &[u8]) -> bool
    ensures { result ≡ differs (option_map (λ (b : Bor (List ℕ)). b.now) first.entry) name.now }
{
    match first {
        Some(first) => first != name,
        None => false,
    }
}

// Two tables of names, with room for so many each.
fn two_tables<'s>(alloc: Global, count: usize) -> Result<(Names<'s>, Names<'s>), AllocError>
    ensures { IfOk result (λ tables. (tables.0 ≡ []) × (tables.1 ≡ [])) }
{
    let first = Names::with_room(alloc, count)?;
    match Names::with_room(alloc, count) {
        Ok(second) => Ok((first, second)),
        Err(fault) => {
            let_go(first);
            Err(fault)
        }
    }
}

impl<'s> Judge<'s> {
    /// No names, with room for those of a module.
    fn with_room(alloc: Global, ports: usize, items: usize) -> Result<Judge<'s>, AllocError>
        ensures { IfOk result (λ judge. tables_of judge ≡ no_tables) }
    {
        let of_all = two_tables(alloc, items)?;
        let of_some = match two_tables(alloc, items) {
            Ok(tables) => tables,
            Err(fault) => {
                let_go(of_all);
                return Err(fault);
            }
        };
        match Signals::with_room(alloc, ports.saturating_add(items)) {
            Ok(signals) => {
                let (clocks, assigned) = of_all;
                let (driven, updated) = of_some;
                Ok(Judge {
                    clocks,
                    assigned,
                    signals,
                    driven,
                    updated,
                    clock: None,
                })
            }
            Err(fault) => {
                let_go(of_all);
                let_go(of_some);
                Err(fault)
            }
        }
    }

    // A signal's name was declared before, or it is a net that is assigned nowhere.
    fn declares_wrongly(&self, name: &[u8], kind: Kind) -> bool
        ensures { result ≡ declares_wrongly (tables_of self.now) name.now kind }
    {
        self.signals.kind(name).is_some() || (is_net(Some(kind)) && !self.assigned.has(name))
    }

    // A target is no net, or was assigned before.
    fn assigns_wrongly(&self, name: &[u8]) -> bool
        ensures { result ≡ assigns_wrongly (tables_of self.now) name.now }
    {
        !is_net(self.signals.kind(name)) || self.driven.has(name)
    }

    // A clock is no input, or not that of the first `always`.
    fn waits_wrongly(&self, name: &[u8]) -> bool
        ensures { result ≡ waits_wrongly (tables_of self.now) name.now }
    {
        !is_input(self.signals.kind(name)) || differs(self.clock, name)
    }

    // The left side of an `always` is no register, or that of one before.
    fn updates_wrongly(&self, name: &[u8]) -> bool
        ensures { result ≡ updates_wrongly (tables_of self.now) name.now }
    {
        !is_register(self.signals.kind(name)) || self.updated.has(name)
    }

    // No expression may read the name here.
    fn reads_wrongly(&self, name: &[u8]) -> bool
        ensures { result ≡ reads_wrongly (tables_of self.now) name.now }
    {
        !is_readable(
            self.signals.kind(name),
            self.clocks.has(name),
            self.driven.has(name),
        )
    }

    // The first name among tokens that no expression may read here.
    #[tactic(auto, using(crate::proofs::Leasts::read_more, crate::proofs::Leasts::sooner_none))]
    fn read_fault(&self, text: &Text<'s>, tokens: &[Token]) -> Option<u32>
        ensures { result ≡ least (read_places (tables_of self.now) (marks_of text.now.source.now tokens.now)) }
    {
        let mut first = None;
        for token in tokens {
            first = sooner(first, self.token_fault(text, *token));
        }
        first
    }

    // A token, if it is a name that no expression may read here.
    fn token_fault(&self, text: &Text<'s>, token: Token) -> Option<u32>
        ensures { result ≡ least (read_places (tables_of self.now) (mark_of text.now.source.now token ∷ [])) }
    {
        let bytes = text.bytes(token);
        if word_of(bytes).is_some() {
            return None;
        }
        place_if(self.reads_wrongly(bytes), token)
    }

    fn signal_fault(&self, text: &Text<'s>, name: Token, kind: Kind) -> Option<u32>
        ensures { result ≡ least (place_if (declares_wrongly (tables_of self.now) (slice_of text.now.source.now name) kind) (name_of text.now.source.now name)) }
    {
        place_if(self.declares_wrongly(text.bytes(name), kind), name)
    }

    #[tactic(auto, using(crate::proofs::Leasts::least_append, crate::proofs::Leasts::fault_least))]
    fn assign_fault(&self, text: &Text<'s>, target: Token, value: Span) -> Option<u32>
        ensures { result ≡ least (item_places (tables_of self.now) (item_of text.now.source.now text.now.tokens.now (item.Assign target value))) }
    {
        let wrong = self.assigns_wrongly(text.bytes(target));
        sooner(
            place_if(wrong, target),
            self.read_fault(text, text.range(value)),
        )
    }

    #[tactic(auto, using(crate::proofs::Leasts::least_append, crate::proofs::Leasts::fault_least))]
    fn always_fault(
        &self,
        text: &Text<'s>,
        clock: Token,
        register: Token,
        value: Span,
    ) -> Option<u32>
        ensures { result ≡ least (item_places (tables_of self.now) (item_of text.now.source.now text.now.tokens.now (item.Always clock register value))) }
    {
        let waits = self.waits_wrongly(text.bytes(clock));
        let updates = self.updates_wrongly(text.bytes(register));
        sooner(
            sooner(place_if(waits, clock), place_if(updates, register)),
            self.read_fault(text, text.range(value)),
        )
    }

    // The first name of an item that breaks a rule.
    fn item_fault(&self, text: &Text<'s>, item: &Item) -> Option<u32>
        ensures { result ≡ least (item_places (tables_of self.now) (item_of text.now.source.now text.now.tokens.now item.now)) }
    {
        match item {
            Item::Wire { name } => self.signal_fault(text, *name, Kind::Wire),
            Item::Register { name, initial } => {
                self.signal_fault(text, *name, Kind::Register(*initial))
            }
            Item::Assign { target, value } => self.assign_fault(text, *target, *value),
            Item::Always {
                clock,
                register,
                value,
            } => self.always_fault(text, *clock, *register, *value),
        }
    }

    // A name that is that of a port breaks a rule.
    fn port_fault(&self, text: &Text<'s>, port: &Port) -> Option<u32>
        ensures { result ≡ least (port_places (tables_of self.now) (port_of text.now.source.now port.now)) }
    {
        self.signal_fault(text, port.name, port_kind(port.direction))
    }

    fn add_port(&mut self, text: &Text<'s>, port: &Port) -> Result<(), AllocError>
        ensures { OnOk result (tables_of self.new ≡ with_port (tables_of self.old) (port_of text.now.source.now port.now)) }
    {
        self.signals
            .add(text.bytes(port.name), port_kind(port.direction))
    }

    fn add_item(&mut self, text: &Text<'s>, item: &Item) -> Result<(), AllocError>
        ensures { OnOk result (tables_of self.new ≡ with_item (tables_of self.old) (item_of text.now.source.now text.now.tokens.now item.now)) }
    {
        match item {
            Item::Wire { name } => self.signals.add(text.bytes(*name), Kind::Wire),
            Item::Register { name, initial } => {
                self.signals
                    .add(text.bytes(*name), Kind::Register(*initial))
            }
            Item::Assign { target, .. } => self.driven.add(text.bytes(*target)),
            Item::Always {
                clock,
                register,
                ..
            } => self.add_always(text.bytes(*clock), text.bytes(*register)),
        }
    }

    fn add_always(&mut self, clock: &'s [u8], register: &'s [u8]) -> Result<(), AllocError>
        ensures { OnOk result (tables_of self.new ≡ with_always (tables_of self.old) clock.now register.now) }
    {
        self.clock = Some(self.clock.unwrap_or(clock));
        self.updated.add(register)
    }

    // The clock or the target of an item, which stands for all of the module.
    fn add_uses(&mut self, text: &Text<'s>, item: &Item) -> Result<(), AllocError>
        ensures { OnOk result (tables_of self.new ≡ with_uses (tables_of self.old) (item_of text.now.source.now text.now.tokens.now item.now)) }
    {
        match item {
            Item::Wire { .. } | Item::Register { .. } => Ok(()),
            Item::Assign { target, .. } => self.assigned.add(text.bytes(*target)),
            Item::Always { clock, .. } => self.clocks.add(text.bytes(*clock)),
        }
    }

    // The clocks and the targets of all items.
    fn add_all_uses(&mut self, text: &Text<'s>, items: &[Item]) -> Result<(), AllocError>
        ensures { OnOk result (tables_of self.new ≡ with_all_uses (tables_of self.old) (map (item_of text.now.source.now text.now.tokens.now) items.now)) }
    {
        for item in items {
            self.add_uses(text, item)?;
        }
        Ok(())
    }

    // The first of the ports' names that breaks a rule.
    #[tactic(auto, using(crate::proofs::Leasts::least_more, crate::proofs::Leasts::sooner_none))]
    fn judge_ports(&mut self, text: &Text<'s>, ports: &[Port]) -> Result<Option<u32>, AllocError>
        ensures first { IfOk result (λ first. first ≡ least (all_port_places (tables_of self.old) (map (port_of text.now.source.now) ports.now))) }
        ensures tables { OnOk result (tables_of self.new ≡ with_ports (tables_of self.old) (map (port_of text.now.source.now) ports.now)) }
    {
        let mut first = None;
        for port in ports {
            first = sooner(first, self.port_fault(text, port));
            self.add_port(text, port)?;
        }
        Ok(first)
    }

    // The first of the items' names that breaks a rule.
    #[tactic(auto, using(crate::proofs::Leasts::least_more, crate::proofs::Leasts::sooner_none))]
    fn judge_items(&mut self, text: &Text<'s>, items: &[Item]) -> Result<Option<u32>, AllocError>
        ensures first { IfOk result (λ first. first ≡ least (all_item_places (tables_of self.old) (map (item_of text.now.source.now text.now.tokens.now) items.now))) }
        ensures tables { OnOk result (tables_of self.new ≡ with_items (tables_of self.old) (map (item_of text.now.source.now text.now.tokens.now) items.now)) }
    {
        let mut first = None;
        for item in items {
            first = sooner(first, self.item_fault(text, item));
            self.add_item(text, item)?;
        }
        Ok(first)
    }

    // The first of a module's names that breaks a rule.
    fn judge(&mut self, text: &Text<'s>, parsed: &Module) -> Result<Option<u32>, AllocError>
        requires { tables_of self.old ≡ no_tables }
        ensures fault { IfOk result (λ fault. fault ≡ least (faults (module_of text.now.source.now text.now.tokens.now parsed.now))) }
        ensures signals { OnOk result (self.new.signals ≡ first_entries [] (signals_of (module_of text.now.source.now text.now.tokens.now parsed.now))) }
        ensures clocks { OnOk result (self.new.clocks ≡ distinct [] (texts (clocks (module_of text.now.source.now text.now.tokens.now parsed.now).items))) }
    {
        self.add_all_uses(text, &parsed.items)?;
        let ports = self.judge_ports(text, &parsed.ports)?;
        let items = self.judge_items(text, &parsed.items)?;
        Ok(sooner(ports, items))
    }
}

/// The names of a module, and the first that breaks a rule.
#[derive(Drop)]
pub(crate) struct Judged<'s> {
    pub names: Judge<'s>,
    pub fault: Option<u32>,
}

/// Judges the names of a module.
pub(crate) fn judge_names<'s>(
    alloc: Global,
    text: &Text<'s>,
    parsed: &Module,
) -> Result<Judged<'s>, AllocError>
    ensures fault { IfOk result (λ judged. judged.fault ≡ least (faults (module_of text.now.source.now text.now.tokens.now parsed.now))) }
    ensures signals { IfOk result (λ judged. judged.names.signals ≡ first_entries [] (signals_of (module_of text.now.source.now text.now.tokens.now parsed.now))) }
    ensures clocks { IfOk result (λ judged. judged.names.clocks ≡ distinct [] (texts (clocks (module_of text.now.source.now text.now.tokens.now parsed.now).items))) }
{
    let mut names = Judge::with_room(alloc, parsed.ports.len(), parsed.items.len())?;
    match names.judge(text, parsed) {
        Ok(fault) => Ok(Judged { names, fault }),
        Err(refused) => {
            let_go(names);
            Err(refused)
        }
    }
}
