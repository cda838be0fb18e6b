//! The lines of payloads.

ghost use Rattle.std.specs.Prelude.{◌≡◌, ◌++◌, IfOk, OnOk};
ghost use Rattle.qe_show.specs.Payloads.{AreWritable, edges_parts, insert_head, insert_line, equal_line, range_head, range_line};

use crate::parts::{Item, put, put_carried, put_hex, put_items, put_number, put_token, put_uuid};
use qe_base::{Bytes, NoMemory};
use qe_payload::{EdgeList, EdgeTokens, FindEdge, FindEqual, FindRange, InsertPayload};
use std::alloc::Global;

impl Item for EdgeTokens {
    ghost use Rattle.qe_show.specs.Payloads.{edge_part};

    ghost part = { edge_part };

    #[tactic(auto, unfolding(crate::specs::Payloads::edge_part))]
    fn put(&self, alloc: Global, line: &mut Bytes, place: usize) -> Result<(), NoMemory> {
        put_token(alloc, line, place, "d", &self.d)?;
        put_token(alloc, line, place, "s", &self.s)?;
        put_token(alloc, line, place, "l", &self.l)?;
        put_token(alloc, line, place, "p", self.p.bytes())
    }
}

impl Item for FindEdge {
    ghost use Rattle.qe_show.specs.Payloads.{find_edge_part};

    ghost part = { find_edge_part };

    #[tactic(auto, unfolding(crate::specs::Payloads::find_edge_part))]
    fn put(&self, alloc: Global, line: &mut Bytes, place: usize) -> Result<(), NoMemory> {
        put_token(alloc, line, place, "d", &self.d)?;
        put_token(alloc, line, place, "s", &self.s)?;
        put_token(alloc, line, place, "l", &self.l)
    }
}

/// The line of an insert payload.
pub fn insert_line(alloc: Global, payload: &InsertPayload) -> Result<Bytes, NoMemory>
    requires { AreWritable payload.now.extra }
    ensures { IfOk result (λ line. line ≡ insert_line payload.now) }
{
    let mut line = insert_head(alloc, payload)?;
    put_edges(alloc, &mut line, &payload.g)?;
    put_carried(alloc, &mut line, &payload.extra)?;
    Ok(line)
}

#[tactic(auto, unfolding(crate::specs::Payloads::insert_head))]
fn insert_head(alloc: Global, payload: &InsertPayload) -> Result<Bytes, NoMemory>
    ensures { IfOk result (λ line. line ≡ insert_head payload.now) }
{
    let mut line = Bytes::from_slice(alloc, b"insert")?;
    put_hex(alloc, &mut line, "d", &payload.d)?;
    put_hex(alloc, &mut line, "s", &payload.s)?;
    put_hex(alloc, &mut line, "p", payload.p.bytes())?;
    put_uuid(&mut line, "u", payload.u)?;
    put_number(alloc, &mut line, "t", i64::from(payload.t))?;
    put_hex(alloc, &mut line, "v", payload.v.slice())?;
    put_hex(alloc, &mut line, "e", &payload.e)?;
    put_hex(alloc, &mut line, "l", &payload.l)?;
    put_number(alloc, &mut line, "k", payload.k)?;
    Ok(line)
}

fn put_edges(alloc: Global, line: &mut Bytes, edges: &Option<EdgeList>) -> Result<(), NoMemory>
    ensures { OnOk result (line.new ≡ line.old ++ edges_parts edges.now) }
{
    match edges {
        None => Ok(()),
        Some(edges) => put_items(alloc, line, edges.slice()),
    }
}

/// The line of a find payload of equality.
#[tactic(auto, unfolding(crate::specs::Payloads::equal_line))]
pub fn equal_line(alloc: Global, payload: &FindEqual) -> Result<Bytes, NoMemory>
    ensures { IfOk result (λ line. line ≡ equal_line payload.now) }
{
    let mut line = Bytes::from_slice(alloc, b"findEquality")?;
    put_hex(alloc, &mut line, "d", &payload.d)?;
    put_hex(alloc, &mut line, "s", &payload.s)?;
    put_hex(alloc, &mut line, "l", &payload.l)?;
    put_number(alloc, &mut line, "cm", payload.cm)?;
    Ok(line)
}

/// The line of a find payload of a range.
#[tactic(auto, unfolding(crate::specs::Payloads::range_line))]
pub fn range_line(alloc: Global, payload: &FindRange) -> Result<Bytes, NoMemory>
    requires { AreWritable payload.now.extra }
    ensures { IfOk result (λ line. line ≡ range_line payload.now) }
{
    let mut line = range_head(alloc, payload)?;
    put_items(alloc, &mut line, payload.g.slice())?;
    put_carried(alloc, &mut line, &payload.extra)?;
    Ok(line)
}

fn range_head(alloc: Global, payload: &FindRange) -> Result<Bytes, NoMemory>
    ensures { IfOk result (λ line. line ≡ range_head payload.now) }
{
    let count = format!(in alloc; "{}", payload.g.len())?;
    let mut line = Bytes::from_slice(alloc, b"findRange")?;
    put_number(alloc, &mut line, "payloadId", i64::from(payload.payload_id))?;
    put_number(alloc, &mut line, "cm", payload.cm)?;
    put(&mut line, "edges", count.as_str())?;
    Ok(line)
}
