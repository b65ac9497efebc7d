// Packets from bytes.
ghost use Rattle.std.specs.Prelude.{◌≡◌, ◌⊎◌, ◌+◌, ◌-◌, ◌<◌, ◌≤◌, ◌^◌, ◌↔◌, IfOk, IfErr, IsTrue, pos, ◌≤ℤ◌, length};
ghost use Rattle.wire_prims.specs.Fields.{i32_at};
ghost use Rattle.wire_prims.specs.declared.fault.Bad.{Bad};
ghost use Rattle.wire_prims.specs.declared.fault.DecodeFault.{DecodeFault};
ghost use Rattle.sbe_consensus.specs.Templates.{is_announcement};
ghost use Rattle.sbe_consensus.specs.Spelling.{HasSpelling, spelling_of, first_fault, body_fault, value_of, packet_of};
ghost use Rattle.sbe_consensus.specs.Laws.{Sound};
ghost use Rattle.sbe_consensus.specs.declared.packet.Packet.{Packet};
ghost use Rattle.sbe_consensus.specs.declared.template.Template.TheVariants as templates;

use crate::batch::{batch_at, batch_fault};
use crate::packet::Packet;
use crate::template::Template;
use cl_base::NoMemory;
use std::alloc::Global;
use wire_prims::{Bad, BadCause, DecodeFault, Tail, get_i32, get_i64, read_header, strict_fault};

/// Whether the bytes have the asked term of an announcement.
fn announces(bytes: &[u8]) -> bool
    ensures { result ≡ is_announcement bytes.now }
{
    bytes.len() >= 16 && get_i64(bytes, 8) == -2
}

/// What is first wrong with bytes whose template is known.
fn fault_of(template: Template, bytes: &[u8]) -> Option<Bad>
    requires { 8 ≤ length bytes.now }
    ensures { result ≡ body_fault template bytes.now }
{
    match template {
        Template::LogBatch => batch_fault(bytes),
        other => strict_fault(bytes, other.rules(), Tail::Nothing),
    }
}

/// The template of bytes that spell a packet, or what is first wrong with them.
#[tactic(auto, unfolding(crate::specs::Spelling::first_fault), using(crate::specs::Laws::found_sound))]
fn template_in(bytes: &[u8]) -> Result<Template, Bad>
    ensures sound { IfOk result (λ t. Sound t bytes.now) }
    ensures fault { IfErr result (λ b. first_fault bytes.now ≡ Some b) }
{
    let header = read_header(bytes)?;
    let Some(template) = Template::of(header.template, announces(bytes)) else {
        return Err(Bad {
            place: 2,
            cause: BadCause::Template,
        });
    };
    match fault_of(template, bytes) {
        Some(bad) => Err(bad),
        None => Ok(template),
    }
}

fn canvass_at(bytes: &[u8]) -> Packet
    requires { 36 ≤ length bytes.now }
    ensures { result ≡ value_of templates.Canvass bytes.now }
{
    Packet::Canvass {
        log_term: get_i64(bytes, 8),
        log_position: get_i64(bytes, 16),
        candidate_term: get_i64(bytes, 24),
        member: get_i32(bytes, 32),
    }
}

fn request_vote_at(bytes: &[u8]) -> Packet
    requires { 36 ≤ length bytes.now }
    ensures { result ≡ value_of templates.RequestVote bytes.now }
{
    Packet::RequestVote {
        log_term: get_i64(bytes, 8),
        log_position: get_i64(bytes, 16),
        candidate_term: get_i64(bytes, 24),
        candidate: get_i32(bytes, 32),
    }
}

fn vote_at(bytes: &[u8]) -> Packet
    requires { 44 ≤ length bytes.now }
    ensures { result ≡ value_of templates.Vote bytes.now }
{
    Packet::Vote {
        candidate_term: get_i64(bytes, 8),
        log_term: get_i64(bytes, 16),
        log_position: get_i64(bytes, 24),
        candidate: get_i32(bytes, 32),
        follower: get_i32(bytes, 36),
        vote: get_i32(bytes, 40),
    }
}

fn answer_at(bytes: &[u8]) -> Packet
    requires { 52 ≤ length bytes.now }
    ensures { result ≡ value_of templates.Answer bytes.now }
{
    Packet::NewTerm {
        asked_term: get_i64(bytes, 8),
        asked_position: get_i64(bytes, 16),
        keep_term: get_i64(bytes, 24),
        keep_position: get_i64(bytes, 32),
        term: get_i64(bytes, 40),
        leader: get_i32(bytes, 48),
    }
}

fn append_at(bytes: &[u8]) -> Packet
    requires { 28 ≤ length bytes.now }
    ensures { result ≡ value_of templates.Append bytes.now }
{
    Packet::Append {
        term: get_i64(bytes, 8),
        position: get_i64(bytes, 16),
        member: get_i32(bytes, 24),
    }
}

fn commit_at(bytes: &[u8]) -> Packet
    requires { 28 ≤ length bytes.now }
    ensures { result ≡ value_of templates.Commit bytes.now }
{
    Packet::Commit {
        term: get_i64(bytes, 8),
        position: get_i64(bytes, 16),
        leader: get_i32(bytes, 24),
    }
}

/// What stands in bytes without a fault.
fn value_at(alloc: Global, template: Template, bytes: &[u8]) -> Result<Packet, NoMemory>
    requires { Sound template bytes.now }
    ensures { IfOk result (λ p. p ≡ value_of template bytes.now) }
{
    match template {
        Template::Canvass => Ok(canvass_at(bytes)),
        Template::RequestVote => Ok(request_vote_at(bytes)),
        Template::Vote => Ok(vote_at(bytes)),
        Template::Answer | Template::Announcement => Ok(answer_at(bytes)),
        Template::Append => Ok(append_at(bytes)),
        Template::Commit => Ok(commit_at(bytes)),
        Template::LogBatch => batch_at(alloc, bytes),
    }
}

/// The packet that the bytes spell, all of the bytes. Bad exactly where they spell none, with what is first wrong.
pub fn decode_packet(alloc: Global, bytes: &[u8]) -> Result<Packet, DecodeFault>
    // What is read has a spelling, which is these bytes.
    ensures spelled { IfOk result (λ p. HasSpelling p × (spelling_of p ≡ bytes.now)) }
    ensures found { IfOk result (λ p. packet_of bytes.now ≡ Some p) }
    // What has this spelling is read, unless memory runs out.
    ensures only { (p : Packet) → HasSpelling p → spelling_of p ≡ bytes.now → (result ≡ Ok p) ⊎ (result ≡ Err DecodeFault.NoMemory) }
    ensures bad { (b : Bad) → (result ≡ Err (DecodeFault.Bad b)) ↔ (first_fault bytes.now ≡ Some b) }
{
    let template = template_in(bytes)?;
    Ok(value_at(alloc, template, bytes)?)
}
