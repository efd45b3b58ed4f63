//! The design of a module whose names keep the rules.
ghost use Rattle.std.specs.Prelude.{◌≡◌, ◌<◌, ◌≤◌, ◌^◌, ◌++◌, Some, slice_get, map, length, IfOk, OnOk};
ghost use Rattle.std.specs.List.{flat_map};
ghost use Rattle.vod_thin_design.specs.Netlist.{netlist_of};
ghost use Rattle.vod_token.specs.Nesting.{slice_of};
ghost use Rattle.vod_thin_syntax.specs.View.{mark_of, marks_of, marks_in, item_of, module_of};
ghost use Rattle.vod_thin.specs.Signals.{has_text, is_register};
ghost use Rattle.vod_thin.specs.Netlists.{number_of, signal_of, class_of, bit_of, input_of, initial_of, inputs_of, initials_of, driver_of, block_of, design_by};
ghost use Rattle.vod_thin.specs.Machine.{ended, step, run, start, read_expr};
ghost use Rattle.vod_thin.specs.MachineView.{machine_of};
ghost use Rattle.vod_thin.specs.View.{input_at, initial_at};

use crate::let_go;
use crate::machine::Machine;
use crate::names::{Kind, Names, Signals};
use crate::text::Text;
use std::alloc::{AllocError, Global};
use vod_thin_design::{Bit, Block, Class, Driver, Expr, Initial, Input, Name, Parts, Signal};
use vod_thin_syntax::{Item, Module, Span, word_of};
use vod_token::Token;

/// The signals of a module, its clocks, and the text in which it stands.
#[derive(Drop)]
pub(crate) struct Builder<'a, 's> {
    pub alloc: Global,
    pub text: Text<'s>,
    pub signals: &'a Signals<'s>,
    pub clocks: &'a Names<'s>,
}

fn bit_of(initial: bool) -> Bit
    ensures { result ≡ bit_of initial }
{
    if initial { Bit::One } else { Bit::Zero }
}

fn class_of(waits: bool) -> Class
    ensures { result ≡ class_of waits }
{
    if waits { Class::Clock } else { Class::Data }
}

fn is_register(kind: Kind) -> bool
    ensures { result ≡ is_register (Some kind) }
{
    matches!(kind, Kind::Register(_))
}

impl<'a, 's> Builder<'a, 's> {
    // The number of the signal with a name.
    fn number(&self, name: Token) -> u32
        requires few { length self.now.signals.now ≤ 2 ^ 25 }
        ensures { result ≡ number_of self.now.signals.now (slice_of self.now.text.source.now name) }
    {
        self.signals.number(self.text.bytes(name)) as u32
    }

    // A token of a right side comes.
    fn step(&self, machine: &mut Machine, token: Token) -> Result<(), AllocError>
        requires few { length self.now.signals.now ≤ 2 ^ 25 }
        ensures { OnOk result (machine_of machine.new ≡ step self.now.signals.now (machine_of machine.old) (mark_of self.now.text.source.now token)) }
    {
        match word_of(self.text.bytes(token)) {
            Some(word) => machine.word(self.alloc, word),
            None => machine.signal(self.alloc, self.number(token)),
        }
    }

    // All tokens of a right side come.
    fn run(&self, machine: &mut Machine, tokens: &[Token]) -> Result<(), AllocError>
        requires few { length self.now.signals.now ≤ 2 ^ 25 }
        ensures { OnOk result (machine_of machine.new ≡ run self.now.signals.now (machine_of machine.old) (marks_of self.now.text.source.now tokens.now)) }
    {
        for token in tokens {
            self.step(machine, *token)?;
        }
        Ok(())
    }

    // All tokens of a right side come, and nothing behind them.
    fn read(&self, machine: &mut Machine, tokens: &[Token]) -> Result<Expr, AllocError>
        requires few { length self.now.signals.now ≤ 2 ^ 25 }
        ensures { IfOk result (λ e. e ≡ ended (run self.now.signals.now (machine_of machine.old) (marks_of self.now.text.source.now tokens.now))) }
    {
        self.run(machine, tokens)?;
        let whole = machine.ended(self.alloc)?;
        Ok(whole)
    }

    // The expression of a right side.
    fn expression(&self, value: Span) -> Result<Expr, AllocError>
        requires few { length self.now.signals.now ≤ 2 ^ 25 }
        ensures { IfOk result (λ e. e ≡ read_expr self.now.signals.now (marks_in self.now.text.source.now self.now.text.tokens.now value)) }
    {
        let mut machine = Machine::new(self.alloc);
        let read = self.read(&mut machine, self.text.range(value));
        let_go(machine);
        let whole = read?;
        Ok(whole)
    }

    fn push_driver(&self, drivers: &mut Vec<Driver>, item: &Item) -> Result<(), AllocError>
        requires few { length self.now.signals.now ≤ 2 ^ 25 }
        ensures { OnOk result (drivers.new.items ≡ drivers.old.items ++ driver_of self.now.signals.now (read_expr self.now.signals.now) (item_of self.now.text.source.now self.now.text.tokens.now item.now)) }
    {
        match item {
            Item::Assign { target, value } => {
                let target = self.number(*target);
                let value = self.expression(*value)?;
                drivers.push(Driver { target, value })?;
                Ok(())
            }
            _ => Ok(()),
        }
    }

    fn push_block(&self, blocks: &mut Vec<Block>, item: &Item) -> Result<(), AllocError>
        requires few { length self.now.signals.now ≤ 2 ^ 25 }
        ensures { OnOk result (blocks.new.items ≡ blocks.old.items ++ block_of self.now.signals.now (read_expr self.now.signals.now) (item_of self.now.text.source.now self.now.text.tokens.now item.now)) }
    {
        match item {
            Item::Always {
                clock,
                register,
                value,
            } => {
                let clock = self.number(*clock);
                let register = self.number(*register);
                let value = self.expression(*value)?;
                blocks.push(Block {
                    clock,
                    register,
                    value,
                })?;
                Ok(())
            }
            _ => Ok(()),
        }
    }

    fn drivers(&self, items: &[Item]) -> Result<Vec<Driver>, AllocError>
        requires few { length self.now.signals.now ≤ 2 ^ 25 }
        ensures { IfOk result (λ drivers. drivers.items ≡ flat_map (driver_of self.now.signals.now (read_expr self.now.signals.now)) (map (item_of self.now.text.source.now self.now.text.tokens.now) items.now)) }
    {
        let mut drivers = Vec::new(self.alloc);
        for item in items {
            self.push_driver(&mut drivers, item)?;
        }
        Ok(drivers)
    }

    fn blocks(&self, items: &[Item]) -> Result<Vec<Block>, AllocError>
        requires few { length self.now.signals.now ≤ 2 ^ 25 }
        ensures { IfOk result (λ blocks. blocks.items ≡ flat_map (block_of self.now.signals.now (read_expr self.now.signals.now)) (map (item_of self.now.text.source.now self.now.text.tokens.now) items.now)) }
    {
        let mut blocks = Vec::new(self.alloc);
        for item in items {
            self.push_block(&mut blocks, item)?;
        }
        Ok(blocks)
    }

    fn signal(&self, number: usize) -> Result<Signal, AllocError>
        requires { number < length self.now.signals.now }
        ensures { IfOk result (λ signal. slice_get (map signal_of self.now.signals.now) number ≡ Some signal) }
    {
        let (name, kind) = self.signals.at(number);
        let name = Name::new(Vec::from_slice(self.alloc, name)?);
        Ok(Signal {
            name,
            register: is_register(kind),
        })
    }

    #[tactic(auto, using(crate::proofs::Brought::take_got))]
    fn signals(&self) -> Result<Vec<Signal>, AllocError>
        ensures { IfOk result (λ signals. signals.items ≡ map signal_of self.now.signals.now) }
    {
        let mut signals = Vec::with_capacity(self.alloc, self.signals.len())?;
        for number in 0..self.signals.len() {
            signals.push(self.signal(number)?)?;
        }
        Ok(signals)
    }

    fn push_input(&self, inputs: &mut Vec<Input>, number: usize) -> Result<(), AllocError>
        requires few { length self.now.signals.now ≤ 2 ^ 25 }
        requires within { number < length self.now.signals.now }
        ensures { OnOk result (inputs.new.items ≡ inputs.old.items ++ input_at self.now.clocks.now self.now.signals.now number) }
    {
        let (name, kind) = self.signals.at(number);
        if kind == Kind::Input {
            let class = class_of(self.clocks.has(name));
            inputs.push(Input {
                signal: number as u32,
                class,
            })?;
        }
        Ok(())
    }

    #[tactic(auto, using(crate::proofs::Brought::input_round))]
    fn inputs(&self) -> Result<Vec<Input>, AllocError>
        requires few { length self.now.signals.now ≤ 2 ^ 25 }
        ensures { IfOk result (λ inputs. inputs.items ≡ inputs_of self.now.clocks.now self.now.signals.now) }
    {
        let mut inputs = Vec::new(self.alloc);
        for number in 0..self.signals.len() {
            self.push_input(&mut inputs, number)?;
        }
        Ok(inputs)
    }

    fn push_initial(&self, initials: &mut Vec<Initial>, number: usize) -> Result<(), AllocError>
        requires few { length self.now.signals.now ≤ 2 ^ 25 }
        requires within { number < length self.now.signals.now }
        ensures { OnOk result (initials.new.items ≡ initials.old.items ++ initial_at self.now.signals.now number) }
    {
        let (_, kind) = self.signals.at(number);
        if let Kind::Register(initial) = kind {
            initials.push(Initial {
                register: number as u32,
                value: bit_of(initial),
            })?;
        }
        Ok(())
    }

    #[tactic(auto, using(crate::proofs::Brought::initial_round))]
    fn initials(&self) -> Result<Vec<Initial>, AllocError>
        requires few { length self.now.signals.now ≤ 2 ^ 25 }
        ensures { IfOk result (λ initials. initials.items ≡ initials_of self.now.signals.now) }
    {
        let mut initials = Vec::new(self.alloc);
        for number in 0..self.signals.len() {
            self.push_initial(&mut initials, number)?;
        }
        Ok(initials)
    }

    /// The parts of the design of a module.
    pub(crate) fn parts(&self, parsed: &Module) -> Result<Parts, AllocError>
        requires few { length self.now.signals.now ≤ 2 ^ 25 }
        ensures { IfOk result (λ parts. netlist_of parts ≡ design_by self.now.signals.now self.now.clocks.now (read_expr self.now.signals.now) (module_of self.now.text.source.now self.now.text.tokens.now parsed.now)) }
    {
        let name = Name::new(Vec::from_slice(self.alloc, self.text.bytes(parsed.name))?);
        Ok(Parts {
            name,
            signals: self.signals()?,
            inputs: self.inputs()?,
            drivers: self.drivers(&parsed.items)?,
            blocks: self.blocks(&parsed.items)?,
            initials: self.initials()?,
        })
    }
}
