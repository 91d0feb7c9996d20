//! Keeps the events of outputs in memory.
ghost use Rattle.std.specs.Prelude.{◌≡◌, ◌+◌, ◌-◌, ◌^◌, ◌≤◌, ◌<◌, ◌++◌, ◌∷◌, [], ◌||◌, ◌&&◌, IsTrue, true, IfOk, MatchResult, is_err};
ghost use Rattle.std.specs.Prelude.{is_ok, if◌then◌else◌, length, map, min, nat_lt, vec_len, vec_capacity};
ghost use Rattle.ports.specs.memory.Slots.{events_at, open_at, are_within, is_open_within, is_within, name_at, event_at, event_now};
ghost use Rattle.ports.specs.memory.Slots.{is_full, call_of, room_of, slot_of};
ghost use Rattle.ports.specs.Outputs.{taken_bytes};
ghost use Rattle.ports.specs.memory.Plan.{is_due, is_output_call};

use crate::memory::event::Event;
use crate::memory::plan::{OutputCall, Plan, output_call_fails};
use crate::{DeviceFault, Outputs};
use std::alloc::{AllocError, Global};

/// Locates a name among the bytes of all names.
#[derive(Clone, Copy)]
struct Span {
    start: usize,
    end: usize,
}

#[derive(Clone, Copy)]
enum Stream {
    ToOutput(Span),
    ToLog,
    ToFault,
}

// Returns the call that writes to the stream.
fn call(stream: Stream) -> OutputCall
    ensures { result ≡ call_of stream }
{
    match stream {
        Stream::ToOutput(_) => OutputCall::Put,
        Stream::ToLog => OutputCall::Log,
        Stream::ToFault => OutputCall::Fault,
    }
}

fn slot(stream: Stream, byte: u8) -> Event<Span>
    ensures { result ≡ slot_of stream byte }
{
    match stream {
        Stream::ToOutput(span) => Event::Byte(span, byte),
        Stream::ToLog => Event::Log(byte),
        Stream::ToFault => Event::Fault(byte),
    }
}

fn push_bytes(slots: &mut Vec<Event<Span>>, stream: Stream, bytes: &[u8])
    requires { vec_len slots.old + length bytes.now ≤ vec_capacity slots.old }
    ensures items { slots.new.items ≡ slots.old.items ++ map (slot_of stream) bytes.now }
    ensures capacity { vec_capacity slots.new ≡ vec_capacity slots.old }
{
    for byte in bytes {
        slots.push_reserved(slot(stream, *byte));
    }
}

// Records as many of these bytes as fit and as a call takes, and returns how many. Fails if the planned failure is due or nothing fits.
fn record_bytes(
    slots: &mut Vec<Event<Span>>,
    plan: &mut Plan<OutputCall>,
    stream: Stream,
    bytes: &[u8],
) -> Result<usize, DeviceFault>
    ensures within { IfOk result (λ n. n ≤ length bytes.now) }
    ensures some { IfOk result (λ n. 0 < length bytes.now → 0 < n) }
    ensures items { slots.new.items ≡ slots.old.items ++ map (slot_of stream) (taken_bytes bytes.now result) }
    ensures fails { is_err result ≡ (is_due (is_output_call plan.old.kind (call_of stream)) plan.old.number
        || (nat_lt 0 (length bytes.now) && is_full slots.old)) }
    ensures count { IfOk result (λ n. n ≡ min (min (length bytes.now) (room_of slots.old)) plan.old.piece) }
    ensures capacity { vec_capacity slots.new ≡ vec_capacity slots.old }
{
    if output_call_fails(plan, call(stream)) {
        return Err(DeviceFault);
    }
    if bytes.is_empty() {
        return Ok(0);
    }
    if slots.len() >= slots.capacity() {
        return Err(DeviceFault);
    }
    let room = slots.capacity() - slots.len();
    let count = bytes.len().min(room).min(plan.piece);
    push_bytes(slots, stream, &bytes[..count]);
    Ok(count)
}

// Records that the output of this name was opened, and keeps the name.
fn record_open(
    slots: &mut Vec<Event<Span>>,
    names: &mut Vec<u8>,
    plan: &mut Plan<OutputCall>,
    name: &[u8],
) -> Result<Span, DeviceFault>
    ensures names { names.new.items ≡ (if is_ok result then names.old.items ++ name.now else names.old.items) }
    ensures span { IfOk result (λ span. (span.start ≡ length names.old.items) × (span.end ≡ length names.new.items)) }
    ensures slots { MatchResult result (λ span. slots.new.items ≡ slots.old.items ++ Event.Open span ∷ [])
        (λ _. slots.new.items ≡ slots.old.items) }
    ensures fails { is_err result ≡ (is_due (is_output_call plan.old.kind OutputCall.Open) plan.old.number
        || is_full slots.old || nat_lt (room_of names.old) (length name.now)) }
    ensures capacity { vec_capacity slots.new ≡ vec_capacity slots.old }
{
    if output_call_fails(plan, OutputCall::Open)
        || slots.len() >= slots.capacity()
        || name.len() > names.capacity().saturating_sub(names.len())
    {
        return Err(DeviceFault);
    }
    let start = names.len();
    names.extend_from_slice(name).unwrap();
    let span = Span {
        start,
        end: names.len(),
    };
    slots.push_reserved(Event::Open(span));
    Ok(span)
}

// Records that the open output was closed.
fn record_close(
    slots: &mut Vec<Event<Span>>,
    plan: &mut Plan<OutputCall>,
    span: Span,
) -> Result<(), DeviceFault>
    ensures slots { slots.new.items ≡ (if is_ok result then slots.old.items ++ Event.Close span ∷ [] else slots.old.items) }
    ensures fails { is_err result ≡ (is_due (is_output_call plan.old.kind OutputCall.Close) plan.old.number
        || is_full slots.old) }
    ensures capacity { vec_capacity slots.new ≡ vec_capacity slots.old }
{
    if output_call_fails(plan, OutputCall::Close) || slots.len() >= slots.capacity() {
        return Err(DeviceFault);
    }
    slots.push_reserved(Event::Close(span));
    Ok(())
}

/// Keeps each event of outputs in memory.
///
/// Their memory is allocated when they are made: an event or a name that does not fit later is a device fault.
#[derive(Drop)]
pub struct MemOutputs {
    slots: Vec<Event<Span>>,
    names: Vec<u8>,
    current: Option<Span>,
    plan: Plan<OutputCall>,
    failures: u64,
    ghost slots_within: { IsTrue (are_within (length names.items) slots.items) },
    ghost open_within: { IsTrue (is_open_within (length names.items) current) },
}

impl MemOutputs {
    ghost use Rattle.ports.specs.memory.MemOutputs.{mem_outputs_plan, mem_outputs_room, mem_outputs_seen};
    ghost use Rattle.ports.specs.memory.Plan.{device_plan};
    ghost use Rattle.ports.specs.declared.memory.plan.OutputCall.TheVariants.{Any};
    ghost use Rattle.std.specs.Prelude.{slice_get};
    ghost use Rattle.std.specs.Option.{option_map};

    /// Returns outputs with room for `room` events, and for `room` bytes of names that are opened. No later call allocates.
    #[tactic(auto, unfolding(crate::specs::memory::Slots::events_at, crate::specs::memory::Slots::open_at, crate::specs::memory::Slots::are_within, crate::specs::memory::Slots::is_open_within))]
    pub fn new(alloc: Global, room: usize) -> Result<Self, AllocError>
        ensures seen { IfOk result (λ out. mem_outputs_seen out ≡ record { events = []; open_name = None; failures = 0; tells = true }) }
        ensures plan { IfOk result (λ out. mem_outputs_plan out ≡ record { piece = 2 ^ 64 - 1; kind = Any; number = 0 }) }
        ensures room { IfOk result (λ out. mem_outputs_room out ≡ record { events = room; names = room }) }
    {
        Ok(MemOutputs {
            slots: Vec::with_capacity(alloc, room)?,
            names: Vec::with_capacity(alloc, room)?,
            current: None,
            plan: Plan::new(usize::MAX, OutputCall::Any, 0),
            failures: 0,
        })
    }

    /// Returns the same outputs with a plan: each call takes at most `piece` bytes, and the call that `fail` names fails once.
    ///
    /// `fail` gives the kind of the call and its number among the calls of that kind, from 1. Later calls succeed again.
    pub fn with_plan(self, piece: usize, fail: Option<(OutputCall, u64)>) -> Self
        requires { 0 < piece }
        ensures seen { mem_outputs_seen result ≡ mem_outputs_seen self }
        ensures plan { mem_outputs_plan result ≡ device_plan Any piece fail }
        ensures room { mem_outputs_room result ≡ mem_outputs_room self }
    {
        MemOutputs {
            slots: self.slots,
            names: self.names,
            current: self.current,
            plan: Plan::told(OutputCall::Any, piece, fail),
            failures: self.failures,
        }
    }

    /// Returns the number of events.
    #[tactic(auto, unfolding(crate::specs::memory::Slots::events_at))]
    pub fn event_count(&self) -> usize
        ensures { result ≡ length (mem_outputs_seen self.now).events }
    {
        self.slots.as_slice().len()
    }

    /// Returns event number `i`, from 0, or `None` after the last. It does not allocate.
    pub fn event(&self, i: usize) -> Option<Event<&[u8]>>
        ensures { option_map event_now result ≡ slice_get (mem_outputs_seen self.now).events i }
    {
        if i < self.slots.len() {
            Some(show(&self.names, self.slots[i]))
        } else {
            None
        }
    }
}

fn name_of(names: &[u8], span: Span) -> &[u8]
    requires start { span.start ≤ span.end }
    requires end { span.end ≤ length names.now }
    ensures { result.now ≡ name_at names.now span }
{
    &names[span.start..span.end]
}

// Returns the event of a slot, with its name.
#[tactic(auto, using(crate::proofs::Recorded::within_bounds), unfolding(crate::specs::memory::Slots::is_within, crate::specs::memory::Slots::event_at, crate::specs::memory::Slots::event_now))]
fn show(names: &[u8], slot: Event<Span>) -> Event<&[u8]>
    requires { IsTrue (is_within (length names.now) slot) }
    ensures { event_now result ≡ event_at names.now slot }
{
    match slot {
        Event::Open(span) => Event::Open(name_of(names, span)),
        Event::Byte(span, byte) => Event::Byte(name_of(names, span), byte),
        Event::Close(span) => Event::Close(name_of(names, span)),
        Event::Log(byte) => Event::Log(byte),
        Event::Fault(byte) => Event::Fault(byte),
    }
}

impl Outputs for MemOutputs {
    ghost use Rattle.ports.specs.memory.MemOutputs.{mem_outputs_seen};

    ghost seen = { mem_outputs_seen };

    fn failures(&self) -> u64 {
        self.failures
    }

    fn open(&mut self, name: &str) -> Result<(), DeviceFault> {
        let name = name.as_bytes();
        let recorded = record_open(&mut self.slots, &mut self.names, &mut self.plan, name);
        let Ok(span) = recorded else {
            self.failures += 1;
            return Err(DeviceFault);
        };
        self.current = Some(span);
        Ok(())
    }

    fn close(&mut self) -> Result<(), DeviceFault> {
        let span = self.current.unwrap();
        match record_close(&mut self.slots, &mut self.plan, span) {
            Ok(()) => {
                self.current = None;
                Ok(())
            }
            Err(fault) => {
                self.failures += 1;
                Err(fault)
            }
        }
    }

    fn put(&mut self, bytes: &[u8]) -> Result<usize, DeviceFault> {
        let stream = Stream::ToOutput(self.current.unwrap());
        let taken = record_bytes(&mut self.slots, &mut self.plan, stream, bytes);
        if taken.is_err() {
            self.failures += 1;
        }
        taken
    }

    fn log(&mut self, bytes: &[u8]) -> Result<usize, DeviceFault> {
        let taken = record_bytes(&mut self.slots, &mut self.plan, Stream::ToLog, bytes);
        if taken.is_err() {
            self.failures += 1;
        }
        taken
    }

    fn fault(&mut self, bytes: &[u8]) -> Result<usize, DeviceFault> {
        let taken = record_bytes(&mut self.slots, &mut self.plan, Stream::ToFault, bytes);
        if taken.is_err() {
            self.failures += 1;
        }
        taken
    }
}
