//! Replies to host calls.

ghost use Rattle.std.specs.Prelude.{◌≡◌, ◌<◌, ◌≤◌, ◌^◌, ◌+◌, ◌++◌, ◌∷◌, [], Some, None, Ok, IfOk, OnOk, IfSome, MatchResult, length, slice_get, option_copied, option_map};
ghost use Rattle.std.specs.List.{AllByRecursion};
ghost use Rattle.std.specs.Vec.{vec_len};
ghost use Rattle.page_memory.specs.Access.{with_bytes};
ghost use Rattle.transcript.specs.Grammar.{FailsToRead, piece_in, piece_of, replies_of, reply_of, pieces_of, words_of};
ghost use Rattle.transcript.specs.Hosts.{IsReply, IsRepliedBy, first_refused, refused_of, with_pieces};

use crate::number_parts::{hex_number, register_value};
use crate::parts::{first_line, first_part};
use crate::reply_fault::ReplyFault;
use hex::FromHexError;
use page_memory::Memory;
use pvm_machine::Machine;
use std::alloc::{AllocError, Global};
use std::marker::Model;

/// How many addresses there are, 2^32.
const ADDRESSES: u64 = 0x1_0000_0000;

/// Bytes that a reply writes from an address on. They end at 2^32 or before.
#[derive(Drop)]
struct Piece {
    at: u32,
    bytes: Vec<u8>,
}

impl Model for Piece {
    ghost use Rattle.std.specs.Prelude.{ℕ, List, length, ◌+◌, ◌<◌, ◌≤◌, ◌^◌};
    ghost use Rattle.std.specs.Coded.{coded×, coded_ℕ, coded_list};

    ghost Value = { ℕ × List ℕ };

    ghost coded = { coded× coded_ℕ (coded_list coded_ℕ) };

    ghost view = { λ p. (p.at, p.bytes.items) };

    ghost invariant = { λ p. (length p.bytes.items < 2 ^ 32) × (p.at + length p.bytes.items ≤ 2 ^ 32) };
}

impl Piece {
    /// The bytes at an address, where there are some and they end at 2^32 or before.
    fn new(at: u64, bytes: Vec<u8>) -> Option<Piece>
        requires { vec_len bytes < 2 ^ 32 }
        ensures { result ≡ piece_in (Some at) (Some bytes.items) }
    {
        let len = bytes.len() as u64;
        if len == 0 || at > ADDRESSES - len {
            return None;
        }
        Some(Piece {
            at: at as u32,
            bytes,
        })
    }

    /// The piece that a word spells.
    fn read(alloc: Global, word: &[u8]) -> Result<Option<Piece>, AllocError>
        requires { length word.now < 2 ^ 32 }
        ensures { IfOk result (λ piece. piece ≡ piece_of word.now) }
    {
        let (address, rest) = first_part(word, b':');
        let Some(rest) = rest else {
            return Ok(None);
        };
        let (digits, more) = first_part(rest, b':');
        if let Some(_) = more {
            return Ok(None);
        }
        let Some(at) = hex_number(address, 8) else {
            return Ok(None);
        };
        match hex::decode(alloc, digits) {
            Ok(bytes) => Ok(Piece::new(at, bytes)),
            Err(FromHexError::OutOfMemory) => Err(AllocError),
            Err(_) => Ok(None),
        }
    }

    /// The first address that may not be written.
    #[tactic(auto, using(crate::proofs::Writing::first_is))]
    fn refused(&self, memory: &Memory) -> Option<u64>
        ensures value { result ≡ first_refused memory.now self.now.0 (length self.now.1) }
        ensures bound { IfSome result (λ address. address < 2 ^ 32) }
    {
        memory.refused(u64::from(self.at), self.bytes.len() as u64, true)
    }

    /// Writes the bytes, which may be written.
    #[tactic(auto, using(crate::proofs::Writing::none_refused))]
    fn write(&self, memory: &mut Memory)
        requires { first_refused memory.old self.now.0 (length self.now.1) ≡ None }
        ensures { memory.new ≡ with_bytes memory.old self.now.0 self.now.1 }
    {
        let written = memory.copy_in(self.at, self.bytes.as_slice());
        prove!(written.is_ok());
    }
}

/// A reply: bytes that are written, and then the values of r7 and r8.
#[derive(Drop)]
struct Reply {
    first: u64,
    second: u64,
    pieces: Vec<Piece>,
}

impl Model for Reply {
    ghost use Rattle.transcript.specs.Hosts.{Reply, reply_code};

    ghost Value = { Reply };

    ghost coded = { reply_code };

    ghost view = { λ r. record { first = r.first; second = r.second; pieces = r.pieces.items } };
}

impl Reply {
    /// The reply that a line spells.
    fn read(alloc: Global, line: &[u8]) -> Result<Option<Reply>, AllocError>
        requires { length line.now < 2 ^ 32 }
        ensures { IfOk result (λ reply. reply ≡ reply_of line.now) }
    {
        let (seven, rest) = first_part(line, b' ');
        let Some(rest) = rest else {
            return Ok(None);
        };
        let (eight, words) = first_part(rest, b' ');
        let Some(first) = register_value(b"r7=", seven) else {
            return Ok(None);
        };
        let Some(second) = register_value(b"r8=", eight) else {
            return Ok(None);
        };
        match read_pieces(alloc, words)? {
            Some(pieces) => Ok(Some(Reply {
                first,
                second,
                pieces,
            })),
            None => Ok(None),
        }
    }
}

/// Adds a reply.
fn push(reply: Reply, replies: &mut Vec<Reply>) -> Result<(), AllocError>
    ensures { OnOk result (replies.new.items ≡ replies.old.items ++ reply ∷ []) }
{
    replies.push(reply)?;
    Ok(())
}

/// The pieces that words spell, with a space between each two. None where a word is no piece.
fn read_pieces(alloc: Global, words: Option<&[u8]>) -> Result<Option<Vec<Piece>>, AllocError>
    requires { IfSome words (λ bytes. length bytes.now < 2 ^ 32) }
    ensures { IfOk result (λ pieces. option_map (λ v. v.items) pieces ≡ pieces_of (words_of (option_copied words.entry))) }
{
    let mut pieces = Vec::new(alloc);
    let mut rest = words;
    while let Some(words) = rest {
        let (word, after) = first_part(words, b' ');
        match Piece::read(alloc, word)? {
            Some(piece) => pieces.push(piece)?,
            None => return Ok(None),
        }
        rest = after;
    }
    Ok(Some(pieces))
}

/// The first address of pieces that may not be written.
fn refused(pieces: &[Piece], memory: &Memory) -> Option<u64>
    ensures value { result ≡ refused_of memory.now pieces.now }
    ensures bound { IfSome result (λ address. address < 2 ^ 32) }
{
    for at in 0..pieces.len() {
        if let Some(address) = pieces[at].refused(memory) {
            return Some(address);
        }
    }
    None
}

/// Writes pieces, all of whose bytes may be written.
fn write(pieces: &[Piece], memory: &mut Memory)
    requires { refused_of memory.old pieces.now ≡ None }
    ensures { memory.new ≡ with_pieces pieces.now memory.old }
{
    for at in 0..pieces.len() {
        pieces[at].write(memory);
    }
}

/// Replies to host calls, in order.
#[derive(Drop)]
pub struct Replies {
    items: Vec<Reply>,
}

impl Model for Replies {
    ghost use Rattle.std.specs.Prelude.{List, length, ◌<◌, ◌^◌};
    ghost use Rattle.std.specs.Coded.{coded_list};
    ghost use Rattle.transcript.specs.Hosts.{Reply as HostReply, reply_code};

    ghost Value = { List HostReply };

    ghost coded = { coded_list reply_code };

    ghost view = { λ r. r.items.items };

    ghost invariant = { λ r. length r.items.items < 2 ^ 32 };
}

impl Replies {
    /// The replies that the bytes of a file are, at most 2^20: a line for each.
    ///
    /// # Errors
    /// `BadLine` for the first line that is no reply, counted from 1.
    pub fn read(alloc: Global, bytes: &[u8]) -> Result<Replies, ReplyFault>
        requires { length bytes.now ≤ 2 ^ 20 }
        ensures read { MatchResult result (λ replies. replies_of bytes.now ≡ Ok replies) (FailsToRead bytes.now) }
        ensures words { IfOk result (AllByRecursion IsReply) }
    {
        let mut items = Vec::new(alloc);
        let mut rest = bytes;
        let mut number = 1;
        while !rest.is_empty() {
            let (line, after) = first_line(rest);
            let Some(reply) = Reply::read(alloc, line)? else {
                return Err(ReplyFault::BadLine(number));
            };
            push(reply, &mut items)?;
            rest = after;
            number += 1;
        }
        Ok(Replies { items })
    }

    /// How many replies there are.
    pub fn len(&self) -> u32
        ensures { result ≡ length self.now }
    {
        self.items.len() as u32
    }

    /// Answers a call by the reply at a place: all its bytes are tested first, in order, and then written; then r7 and r8
    /// take their values. It takes no memory.
    ///
    /// # Errors
    /// The first address of the reply's bytes that may not be written; then nothing changed.
    pub fn answer(&self, at: u32, outer: &mut Machine<'_>) -> Result<(), u64>
        requires { at < length self.now }
        ensures { IsRepliedBy (slice_get self.now at) outer.old outer.new result }
    {
        let reply = &self.items[at as usize];
        if let Some(address) = refused(reply.pieces.as_slice(), outer.memory()) {
            return Err(address);
        }
        write(reply.pieces.as_slice(), outer.memory_mut());
        outer.set_register(7, reply.first);
        outer.set_register(8, reply.second);
        Ok(())
    }
}
