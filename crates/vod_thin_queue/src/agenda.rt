//! What each signal has and what is left to do, and the events that change it.
ghost use Rattle.std.specs.Prelude.{◌≡◌, ◌+◌, ◌<◌, ◌≢◌, ◌↔◌, ◌==◌, ◌&&◌, [], All, AllPairs, length, map, not, if◌then◌else◌, is_some, Some, slice_get, slice_index, slice_index_or, IsTrue, IfOk};
ghost use Rattle.std.specs.List.{enumerate_from};
ghost use Rattle.vod_thin_design.specs.declared.thin.Bit.TheVariants as b;
ghost use Rattle.vod_thin_design.specs.Bits.{same_bit, value_at};
ghost use Rattle.vod_thin_design.specs.Netlist.{IsAccepted, has, input_signals, targets, assigned_registers, initial_registers};
ghost use Rattle.vod_thin_design.specs.Vectors.{assigned};
ghost use Rattle.vod_thin_queue.specs.declared.event.Event.TheVariants as e;
ghost use Rattle.vod_thin_queue.specs.State.{start_of, opened, flag_at, IsShaped, IsResting};
ghost use Rattle.vod_thin_queue.specs.Step.{choices_of, is_allowed, is_rising, has_active, initial_values, after, put, pending};
ghost use Rattle.vod_thin_queue.specs.Core.{IsOrderly};
ghost use Rattle.vod_thin_queue.specs.Flags.{set_all, set_where};
ghost use Rattle.vod_thin_queue.specs.Index.{AreListeners};

use crate::event::Event;
use crate::fanout::Listeners;
use crate::flags::Flags;
use crate::updates::Updates;
use crate::waiting::Waiting;
use std::alloc::{AllocError, Global};
use std::marker::Model;
use std::mem;
use vod_thin_design::{Bit, Block, Design, Driver, Move};

/// The value of each signal, and by place what is left: moves by input, initial values,
/// evaluations and updates by driver, statements and nonblocking updates by block.
#[derive(Drop)]
pub struct Agenda {
    val: Vec<Bit>,
    moves: Waiting,
    init: Flags,
    wake: Flags,
    pend: Waiting,
    todo: Flags,
    later: Updates,
    active: Updates,
}

impl Model for Agenda {
    ghost use Rattle.vod_thin_queue.specs.State.{State};

    ghost Value = { State };

    ghost view = { λ a. record { val = a.val.items; moves = a.moves; init = a.init; wake = a.wake; pend = a.pend; todo = a.todo; later = a.later; now = a.active } };
}

impl Agenda {
    /// Before any step: inputs are z and all else is x, every driver awaits evaluation and each
    /// block an edge.
    pub fn start(alloc: Global, design: &Design) -> Result<Agenda, AllocError>
        ensures state { IfOk result (λ agenda. agenda ≡ start_of design.now) }
        ensures accepted { IsAccepted design.now }
    {
        let inputs = design.inputs().len();
        let initials = design.initials().len();
        let drivers = design.drivers().len();
        let blocks = design.blocks().len();
        Ok(Agenda {
            val: first_values(alloc, design)?,
            moves: Waiting::none(alloc, inputs)?,
            init: Flags::all(alloc, initials)?,
            wake: Flags::all(alloc, drivers)?,
            pend: Waiting::none(alloc, drivers)?,
            todo: Flags::none(alloc, blocks)?,
            later: Updates::none(alloc, blocks)?,
            active: Updates::none(alloc, blocks)?,
        })
    }

    /// The value of each signal.
    pub fn values(&self) -> &[Bit]
        ensures { result.now ≡ self.now.val }
    {
        self.val.as_slice()
    }

    /// How many events are allowed.
    pub fn choices(&self) -> u32
        ensures count { result ≡ length (choices_of self.now) }
        ensures none { (result ≡ 0) ↔ IsResting self.now }
    {
        let changes = self.moves.count() + self.wake.count() + self.pend.count();
        let active = changes + self.todo.count() + self.init.count() + self.active.count();
        active + activations(active, self.later.count())
    }

    /// The assignments become moves.
    pub fn open_slot(&mut self, design: &Design, moves: &[Move])
        requires shaped { IsShaped design.now self.old }
        requires rests { IsResting self.old }
        requires once { AllPairs (λ i k. i ≢ k) (assigned moves.now) }
        requires within { All (λ i. i < length design.now.inputs) (assigned moves.now) }
        ensures { self.new ≡ opened design.now moves.now self.old }
    {
        for assignment in moves {
            self.moves.write(assignment.input, Some(assignment.value));
        }
    }

    /// The event with this number among those that are allowed.
    pub fn event(&self, choice: u32) -> Event
        requires { choice < length (choices_of self.now) }
        ensures chosen { slice_get (choices_of self.now) choice ≡ Some result }
        ensures allowed { IsTrue (is_allowed self.now result) }
    {
        let moves = self.moves.count();
        if choice < moves {
            return Event::TakeMove(self.moves.find(choice));
        }
        let left = choice - moves;
        let awake = self.wake.count();
        if left < awake {
            return Event::Evaluate(self.wake.find(left));
        }
        let left = left - awake;
        let pending = self.pend.count();
        if left < pending {
            return Event::Update(self.pend.find(left));
        }
        let left = left - pending;
        let statements = self.todo.count();
        if left < statements {
            return Event::Run(self.todo.find(left));
        }
        let left = left - statements;
        let initials = self.init.count();
        if left < initials {
            return Event::Initialize(self.init.find(left));
        }
        let left = left - initials;
        if left < self.active.count() {
            return Event::Perform(self.active.find(left));
        }
        Event::Activate
    }

    /// An event that is allowed happens.
    pub fn take(&mut self, design: &Design, listeners: &Listeners, event: Event)
        requires shaped { IsShaped design.now self.old }
        requires orderly { IsOrderly design.now self.old }
        requires listed { AreListeners design.now listeners.now }
        requires allowed { IsTrue (is_allowed self.old event) }
        ensures { self.new ≡ after design.now self.old event }
    {
        match event {
            Event::TakeMove(input) => self.take_move(design, listeners, input),
            Event::Evaluate(driver) => self.evaluate(design, driver),
            Event::Update(driver) => self.update(design, listeners, driver),
            Event::Run(block) => self.run(design, block),
            Event::Initialize(initial) => self.initialize(design, listeners, initial),
            Event::Activate => self.activate(),
            Event::Perform(block) => self.perform(design, listeners, block),
        }
    }

    fn take_move(&mut self, design: &Design, listeners: &Listeners, input: u32)
        requires shaped { IsShaped design.now self.old }
        requires listed { AreListeners design.now listeners.now }
        requires allowed { IsTrue (is_allowed self.old (e.TakeMove input)) }
        ensures { self.new ≡ after design.now self.old (e.TakeMove input) }
    {
        let signal = input_signal(design, input);
        let bit = self.moves.take(input);
        self.put(design, listeners, signal, bit);
    }

    fn evaluate(&mut self, design: &Design, place: u32)
        requires shaped { IsShaped design.now self.old }
        requires allowed { IsTrue (is_allowed self.old (e.Evaluate place)) }
        ensures { self.new ≡ after design.now self.old (e.Evaluate place) }
    {
        let driver = driver_at(design, place);
        let new = driver.value.value(self.val.as_slice());
        let old = self.val[driver.target as usize];
        self.wake.write(place, false);
        self.pend.write(place, pending(new, old));
    }

    fn update(&mut self, design: &Design, listeners: &Listeners, place: u32)
        requires shaped { IsShaped design.now self.old }
        requires listed { AreListeners design.now listeners.now }
        requires allowed { IsTrue (is_allowed self.old (e.Update place)) }
        ensures { self.new ≡ after design.now self.old (e.Update place) }
    {
        let signal = driver_at(design, place).target;
        let bit = self.pend.take(place);
        self.put(design, listeners, signal, bit);
    }

    fn run(&mut self, design: &Design, place: u32)
        requires shaped { IsShaped design.now self.old }
        requires orderly { IsOrderly design.now self.old }
        requires allowed { IsTrue (is_allowed self.old (e.Run place)) }
        ensures { self.new ≡ after design.now self.old (e.Run place) }
    {
        let bit = block_at(design, place).value.value(self.val.as_slice());
        self.todo.write(place, false);
        self.later.add(place, bit);
    }

    fn initialize(&mut self, design: &Design, listeners: &Listeners, place: u32)
        requires shaped { IsShaped design.now self.old }
        requires listed { AreListeners design.now listeners.now }
        requires allowed { IsTrue (is_allowed self.old (e.Initialize place)) }
        ensures { self.new ≡ after design.now self.old (e.Initialize place) }
    {
        let (register, bit) = initial_at(design, place);
        self.init.write(place, false);
        self.put(design, listeners, register, bit);
    }

    fn activate(&mut self)
        requires allowed { IsTrue (is_allowed self.old e.Activate) }
        requires shaped { length self.old.later ≡ length self.old.now }
        ensures { self.new ≡ record self.old { later = map (λ updates. []) self.old.later; now = self.old.later } }
    {
        mem::swap(&mut self.later, &mut self.active);
    }

    fn perform(&mut self, design: &Design, listeners: &Listeners, place: u32)
        requires shaped { IsShaped design.now self.old }
        requires listed { AreListeners design.now listeners.now }
        requires allowed { IsTrue (is_allowed self.old (e.Perform place)) }
        ensures { self.new ≡ after design.now self.old (e.Perform place) }
    {
        let register = block_at(design, place).register;
        let bit = self.active.take(place);
        self.put(design, listeners, register, bit);
    }

    /// A signal takes a value: where that changes it, its readers await evaluation, and where the
    /// change is a posedge, the blocks that wait for it have their statement to run.
    fn put(&mut self, design: &Design, listeners: &Listeners, signal: u32, bit: Bit)
        requires shaped { IsShaped design.now self.old }
        requires listed { AreListeners design.now listeners.now }
        requires within { signal < length design.now.signals }
        ensures { self.new ≡ put design.now signal bit self.old }
    {
        let old = self.val[signal as usize];
        self.val[signal as usize] = bit;
        set_where(
            &mut self.wake,
            changed(old, bit),
            listeners.readers.get(signal),
        );
        set_where(
            &mut self.todo,
            rises(old, bit),
            listeners.waiters.get(signal),
        );
    }
}

/// How many activations are allowed: one where nothing else is left but updates.
fn activations(active: u32, later: u32) -> u32
    ensures { result ≡ (if (active == 0) && not (later == 0) then 1 else 0) }
{
    if active == 0 && later > 0 { 1 } else { 0 }
}

/// The values before any step: z at inputs, and x elsewhere.
fn first_values(alloc: Global, design: &Design) -> Result<Vec<Bit>, AllocError>
    ensures { IfOk result (λ val. val.items ≡ map (λ e. if has (input_signals design.now) e.0 then b.Z else b.X) (enumerate_from 0 design.now.signals)) }
{
    let mut val = vec![in alloc; Bit::X; design.signals().len()]?;
    for input in design.inputs() {
        val[input.signal as usize] = Bit::Z;
    }
    Ok(val)
}

fn input_signal(design: &Design, input: u32) -> u32
    requires { input < length design.now.inputs }
    ensures signal { result ≡ slice_index (input_signals design.now) input }
    ensures within { result < length design.now.signals }
{
    design.inputs()[input as usize].signal
}

fn driver_at(design: &Design, place: u32) -> &Driver
    requires { place < length design.now.drivers }
    ensures driver { slice_get design.now.drivers place ≡ Some result.now }
    ensures target { result.now.target ≡ slice_index (targets design.now.drivers) place }
    ensures within { result.now.target < length design.now.signals }
{
    &design.drivers()[place as usize]
}

fn block_at(design: &Design, place: u32) -> &Block
    requires { place < length design.now.blocks }
    ensures block { slice_get design.now.blocks place ≡ Some result.now }
    ensures register { result.now.register ≡ slice_index (assigned_registers design.now.blocks) place }
    ensures within { result.now.register < length design.now.signals }
{
    &design.blocks()[place as usize]
}

/// A register and its initial value.
fn initial_at(design: &Design, place: u32) -> (u32, Bit)
    requires { place < length design.now.initials }
    ensures register { result.0 ≡ slice_index (initial_registers design.now.initials) place }
    ensures value { result.1 ≡ slice_index_or (initial_values design.now.initials) place b.X }
    ensures within { result.0 < length design.now.signals }
{
    let initial = design.initials()[place as usize];
    (initial.register, initial.value)
}

fn changed(old: Bit, new: Bit) -> bool
    ensures { result ≡ not (same_bit old new) }
{
    old != new
}

/// Whether a change is a posedge (IEEE 1364-2005, 9.7.2).
fn rises(old: Bit, new: Bit) -> bool
    ensures { result ≡ is_rising old new }
{
    match old {
        Bit::Zero => changed(new, Bit::Zero),
        Bit::One => false,
        Bit::X | Bit::Z => !changed(new, Bit::One),
    }
}

/// The pending value that an evaluation leaves: none where the target has it already.
fn pending(new: Bit, old: Bit) -> Option<Bit>
    ensures { result ≡ pending new old }
{
    if changed(new, old) { Some(new) } else { None }
}

/// Sets the flags at these places where something happened.
fn set_where(flags: &mut Flags, happened: bool, places: &[u32])
    requires { All (λ place. place < length flags.old) places.now }
    ensures same { length flags.new ≡ length flags.old }
    ensures set { flags.new ≡ set_where happened flags.old places.now }
{
    if happened {
        set_all(flags, places);
    }
}

/// Sets the flags at these places.
fn set_all(flags: &mut Flags, places: &[u32])
    requires { All (λ place. place < length flags.old) places.now }
    ensures same { length flags.new ≡ length flags.old }
    ensures set { flags.new ≡ set_all flags.old places.now }
{
    for place in places {
        flags.write(*place, true);
    }
}
