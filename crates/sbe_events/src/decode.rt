// Events from bytes.
ghost use Rattle.std.specs.Prelude.{◌≡◌, ◌⊎◌, ◌+◌, ◌-◌, ◌≤◌, ◌↔◌, ℕ, List, length, IfOk, IfErr, IsSome, IsTrue, pos, ◌≤ℤ◌};
ghost use Rattle.cl_base.specs.declared.fault.NoMemory.{NoMemory};
ghost use Rattle.wire_prims.specs.Fields.{u32_at, i32_at, i64_at};
ghost use Rattle.wire_prims.specs.Strict.{is_service_session};
ghost use Rattle.wire_prims.specs.declared.fault.Bad.{Bad};
ghost use Rattle.wire_prims.specs.declared.fault.DecodeFault.{DecodeFault};
ghost use Rattle.sbe_events.specs.Spelling.{HasSpelling, spelling_of, first_fault, value_of, event_of, term_of as term_in};
ghost use Rattle.sbe_events.specs.Laws.{Sound};
ghost use Rattle.sbe_events.specs.declared.event.Event.{Event};
ghost use Rattle.sbe_events.specs.declared.template.Template.TheVariants as templates;

use crate::event::Event;
use crate::template::Template;
use cl_base::{Bytes, NoMemory};
use std::alloc::Global;
use wire_prims::{
    Bad, BadCause, DecodeFault, get_i32, get_i64, get_u32, read_header, sender_of, strict_fault,
};

/// The template of bytes that spell an event, or what is first wrong with them.
#[tactic(auto, unfolding(crate::specs::Spelling::first_fault), using(crate::specs::Laws::found_sound))]
fn template_in(bytes: &[u8]) -> Result<Template, Bad>
    ensures sound { IfOk result (λ t. Sound t bytes.now) }
    ensures fault { IfErr result (λ b. first_fault bytes.now ≡ Some b) }
{
    let header = read_header(bytes)?;
    let Some(template) = Template::of(header.template) else {
        return Err(Bad {
            place: 2,
            cause: BadCause::Template,
        });
    };
    match strict_fault(bytes, template.rules(), template.tail()) {
        Some(bad) => Err(bad),
        None => Ok(template),
    }
}

/// What is first wrong with bytes that spell no event, None where they spell one. It takes no memory.
pub fn event_fault(bytes: &[u8]) -> Option<Bad>
    ensures { result ≡ first_fault bytes.now }
{
    match template_in(bytes) {
        Ok(_) => None,
        Err(bad) => Some(bad),
    }
}

fn message_at(alloc: Global, bytes: &[u8]) -> Result<Event, NoMemory>
    requires long { 32 ≤ length bytes.now }
    requires sender { (pos 1 ≤ℤ i64_at 16 bytes.now) ⊎ IsTrue (is_service_session (i64_at 16 bytes.now)) }
    ensures { IfOk result (λ e. e ≡ value_of templates.Message bytes.now) }
{
    let term = get_i64(bytes, 8);
    let session = get_i64(bytes, 16);
    let stamp = get_i64(bytes, 24);
    let payload = Bytes::of(alloc, &bytes[32..])?;
    if session >= 1 {
        return Ok(Event::Message {
            term,
            session,
            stamp,
            payload,
        });
    }
    let (service, number) = sender_of(session);
    Ok(Event::ServiceMessage {
        term,
        service,
        number,
        stamp,
        payload,
    })
}

fn opened_at(alloc: Global, bytes: &[u8]) -> Result<Event, NoMemory>
    requires long { 48 ≤ length bytes.now }
    requires there { 48 + u32_at 44 bytes.now ≤ length bytes.now }
    ensures { IfOk result (λ e. e ≡ value_of templates.Opened bytes.now) }
{
    let len = get_u32(bytes, 44) as usize;
    let channel = Bytes::of(alloc, &bytes[48..48 + len])?;
    Ok(Event::Opened {
        term: get_i64(bytes, 8),
        corr: get_i64(bytes, 16),
        session: get_i64(bytes, 24),
        stamp: get_i64(bytes, 32),
        stream: get_i32(bytes, 40),
        channel,
    })
}

fn timer_at(bytes: &[u8]) -> Event
    requires { 32 ≤ length bytes.now }
    ensures { result ≡ value_of templates.Timer bytes.now }
{
    Event::Timer {
        term: get_i64(bytes, 8),
        corr: get_i64(bytes, 16),
        stamp: get_i64(bytes, 24),
    }
}

fn closed_at(bytes: &[u8]) -> Event
    requires long { 36 ≤ length bytes.now }
    requires low { pos 0 ≤ℤ i32_at 32 bytes.now }
    requires high { i32_at 32 bytes.now ≤ℤ pos 2 }
    ensures { result ≡ value_of templates.Closed bytes.now }
{
    Event::Closed {
        term: get_i64(bytes, 8),
        session: get_i64(bytes, 16),
        stamp: get_i64(bytes, 24),
        reason: get_i32(bytes, 32) as u8,
    }
}

fn snapshot_at(bytes: &[u8]) -> Event
    requires { 32 ≤ length bytes.now }
    ensures { result ≡ value_of templates.Snapshot bytes.now }
{
    Event::Snapshot {
        term: get_i64(bytes, 8),
        position: get_i64(bytes, 16),
        stamp: get_i64(bytes, 24),
    }
}

fn new_term_at(bytes: &[u8]) -> Event
    requires { 44 ≤ length bytes.now }
    ensures { result ≡ value_of templates.Term bytes.now }
{
    Event::Term {
        term: get_i64(bytes, 8),
        position: get_i64(bytes, 16),
        stamp: get_i64(bytes, 24),
        base: get_i64(bytes, 32),
        leader: get_i32(bytes, 40),
    }
}

/// What stands in bytes without a fault.
fn value_at(alloc: Global, template: Template, bytes: &[u8]) -> Result<Event, NoMemory>
    requires { Sound template bytes.now }
    ensures { IfOk result (λ e. e ≡ value_of template bytes.now) }
{
    match template {
        Template::Message => message_at(alloc, bytes),
        Template::Opened => opened_at(alloc, bytes),
        Template::Timer => Ok(timer_at(bytes)),
        Template::Closed => Ok(closed_at(bytes)),
        Template::Snapshot => Ok(snapshot_at(bytes)),
        Template::Term => Ok(new_term_at(bytes)),
    }
}

/// The event that the bytes spell, all of the bytes. Bad exactly where they spell none, with what is first wrong.
pub fn decode_event(alloc: Global, bytes: &[u8]) -> Result<Event, DecodeFault>
    // What is read has a spelling, which is these bytes.
    ensures spelled { IfOk result (λ e. HasSpelling e × (spelling_of e ≡ bytes.now)) }
    ensures found { IfOk result (λ e. event_of bytes.now ≡ Some e) }
    // What has this spelling is read, unless memory runs out.
    ensures only { (e : Event) → HasSpelling e → spelling_of e ≡ bytes.now → (result ≡ Ok e) ⊎ (result ≡ Err DecodeFault.NoMemory) }
    ensures bad { (b : Bad) → (result ≡ Err (DecodeFault.Bad b)) ↔ (first_fault bytes.now ≡ Some b) }
{
    let template = template_in(bytes)?;
    Ok(value_at(alloc, template, bytes)?)
}

/// The term of the event that the bytes spell. It takes no memory.
pub fn term_of(bytes: &[u8]) -> i64
    requires { IsSome (event_of bytes.now) }
    ensures { (e : Event) → event_of bytes.now ≡ Some e → result ≡ term_in e }
{
    get_i64(bytes, 8)
}
