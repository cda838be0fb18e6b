//! Values of encrypted fields, as they are sent.

ghost use Rattle.std.specs.Prelude.{◌≡◌, ◌<◌, ◌≤◌, ◌+◌, ◌*◌, ◌^◌, None, Some, true, length, All, IfOk, OnOk};
ghost use Rattle.qe_value.specs.Views.{plain};
ghost use Rattle.qe_edges.specs.Prefixes.{IsSpelled};
ghost use Rattle.qe_edges.specs.Texts.{text_of};
ghost use Rattle.qe_field.specs.Values.{lies_in, number_in as number_of};
ghost use Rattle.qe_encodes.specs.Draws.{drawn_at, value_draws};
ghost use Rattle.qe_encodes.specs.Fields.{kind_at};
ghost use Rattle.qe_encodes.specs.Items.{bytes_of, value_edges as edges_under};
ghost use Rattle.qe_encodes.specs.Payloads as sent;
ghost use Rattle.qe_keyring.specs.Drawing.{further};
ghost use Rattle.qe_sending.specs.Drawn.{IsOwn, HasEdgeDraws};
ghost use Rattle.qe_sending.specs.Sendable.{IsLeaf, CanSendValue};

use qe_base::{Duplicate, NoMemory};
use qe_command::SentCell;
use qe_document::{Document, Value};
use qe_edges::{Domain, Edge, Edges};
use qe_field::{FieldKind, number_in};
use qe_insert::InsertPayload;
use qe_keyring::{Draws, EncryptedField, Keyring, spelled_bytes};
use qe_parts::{EdgeList, EdgeTokens};
use std::alloc::Global;

/// What is drawn for a value itself.
#[derive(Clone, Copy)]
pub(crate) struct OwnDraws {
    /// The contention factor.
    pub factor: u64,
    /// The sealed value's IV.
    pub value_iv: [u8; 16],
    /// The IV of the token of rows.
    pub token_iv: [u8; 16],
}

// What is drawn for a value itself, under a factor up to a number.
fn own_draws(draws: &mut Draws, most: u64) -> OwnDraws
    requires place { draws.old.place + 10 < 2 ^ 68 }
    requires most { most < 2 ^ 63 }
    ensures own { IsOwn result (drawn_at draws.old.stream most draws.old.place) }
    ensures small { result.factor ≤ most }
    ensures next { draws.new ≡ further draws.old 10 }
{
    let factor = draws.factor(most);
    let value_iv = draws.iv();
    let token_iv = draws.iv();
    OwnDraws {
        factor,
        value_iv,
        token_iv,
    }
}

// Whether an edge is at the leaf level, as a byte, where it is said.
fn leaf_byte(leaves: bool, domain: &Domain, edge: &Edge) -> Option<u8>
    ensures { result ≡ sent.leaf_byte leaves domain.now edge.now }
{
    if !leaves {
        return None;
    }
    if edge.len == domain.bits() {
        Some(1)
    } else {
        Some(0)
    }
}

// An edge's tokens under a factor.
fn edge_tokens(
    field: &EncryptedField<'_>,
    factor: u64,
    edge: &Edge,
    iv: &[u8; 16],
    leaf: Option<u8>,
) -> EdgeTokens
    requires { edge.now.len ≤ 64 }
    ensures { result ≡ sent.item_tokens field.now.under field.now.number factor (text_of edge.now) iv.now leaf }
{
    let mut text = [0; 64];
    let length = edge.text(&mut text);
    field.item_tokens(factor, &text[..length], iv, leaf)
}

// Edges under a factor, each with an IV of its own.
fn edges_sent(
    alloc: Global,
    field: &EncryptedField<'_>,
    leaves: bool,
    factor: u64,
    domain: &Domain,
    edges: &[Edge],
    draws: &mut Draws,
) -> Result<EdgeList, NoMemory>
    requires spelled { All IsSpelled edges.now }
    requires place { draws.old.place + 4 * length edges.now < 2 ^ 68 }
    ensures sent { IfOk result (λ list. (drawn : sent.Drawn) → HasEdgeDraws drawn factor draws.old
        → list ≡ sent.sent_edges field.now.under leaves field.now.number domain.now drawn edges.now 0) }
    ensures next { OnOk result (draws.new ≡ further draws.old (4 * length edges.now)) }
{
    let mut list = EdgeList::new(alloc);
    for edge in edges {
        let iv = draws.iv();
        let leaf = leaf_byte(leaves, domain, edge);
        list.push(edge_tokens(field, factor, edge, &iv, leaf))?;
    }
    Ok(list)
}

// The edges of a value of a range field.
fn value_edges(alloc: Global, domain: &Domain, value: &Value) -> Result<Edges, NoMemory>
    requires { lies_in domain.now.min domain.now.max (number_of (plain value.now)) ≡ true }
    ensures edges { IfOk result (λ edges. edges ≡ edges_under domain.now (plain value.now)) }
    ensures spelled { IfOk result (All IsSpelled) }
    ensures count { IfOk result (λ edges. length edges ≤ 65) }
{
    match number_in(value) {
        Some(number) => domain.edges(alloc, number),
        None => Ok(Edges::new(alloc)),
    }
}

// What is sent of a value's edges.
fn ranged(
    alloc: Global,
    field: &EncryptedField<'_>,
    leaves: bool,
    factor: u64,
    domain: &Domain,
    value: &Value,
    draws: &mut Draws,
) -> Result<EdgeList, NoMemory>
    requires within { lies_in domain.now.min domain.now.max (number_of (plain value.now)) ≡ true }
    requires place { draws.old.place + 260 < 2 ^ 68 }
    ensures sent { IfOk result (λ list. (drawn : sent.Drawn) → HasEdgeDraws drawn factor draws.old
        → list ≡ sent.sent_edges field.now.under leaves field.now.number domain.now drawn (edges_under domain.now (plain value.now)) 0) }
    ensures next { OnOk result (draws.new ≡ further draws.old (4 * length (edges_under domain.now (plain value.now)))) }
{
    let edges = value_edges(alloc, domain, value)?;
    edges_sent(alloc, field, leaves, factor, domain, edges.slice(), draws)
}

// A value's payload: its own tokens, its bytes sealed, and its edges if it has any.
fn payload(
    alloc: Global,
    field: &EncryptedField<'_>,
    kept: ([u8; 16], u8),
    own: &OwnDraws,
    bytes: &[u8],
    g: Option<EdgeList>,
) -> Result<InsertPayload, NoMemory>
    requires { own.now.factor < 2 ^ 63 }
    ensures { IfOk result (λ payload. (drawn : sent.Drawn) → IsOwn own.now drawn
        → payload ≡ sent.payload_of field.now.under field.now.number kept.0 kept.1 drawn bytes.now g) }
{
    let (key_id, value_kind) = kept;
    let EdgeTokens { d, s, l, p } = field.item_tokens(own.factor, bytes, &own.token_iv, None);
    let v = field.sealed(alloc, &key_id, &own.value_iv, bytes)?;
    let e = field.cipher().0;
    Ok(InsertPayload {
        d,
        s,
        p,
        u: key_id,
        t: i32::from(value_kind),
        v,
        e,
        l,
        k: own.factor as i64,
        g,
        extra: Document::new(alloc),
    })
}

// A value of a field that is searched for equality.
fn equality(
    alloc: Global,
    field: &EncryptedField<'_>,
    kept: ([u8; 16], u8),
    most: u64,
    value: &Value,
    draws: &mut Draws,
) -> Result<InsertPayload, NoMemory>
    requires leaf { IsLeaf (plain value.now) }
    requires place { draws.old.place + 10 < 2 ^ 68 }
    requires most { most < 2 ^ 63 }
    ensures sent { IfOk result (λ payload. payload ≡ sent.payload_of field.now.under field.now.number kept.0 kept.1
        (drawn_at draws.old.stream most draws.old.place) (bytes_of (plain value.now)) None) }
    ensures next { OnOk result (draws.new ≡ further draws.old 10) }
{
    let bytes = spelled_bytes(alloc, value)?;
    let own = own_draws(draws, most);
    let sent = payload(alloc, field, kept, &own, bytes.slice(), None)?;
    Ok(sent)
}

// A value of a field that is searched for intervals.
fn range(
    alloc: Global,
    field: &EncryptedField<'_>,
    leaves: bool,
    kept: ([u8; 16], u8),
    domain: &Domain,
    most: u64,
    value: &Value,
    draws: &mut Draws,
) -> Result<InsertPayload, NoMemory>
    requires leaf { IsLeaf (plain value.now) }
    requires within { lies_in domain.now.min domain.now.max (number_of (plain value.now)) ≡ true }
    requires place { draws.old.place + 270 < 2 ^ 68 }
    requires most { most < 2 ^ 63 }
    ensures sent { IfOk result (λ payload. payload ≡ (let drawn = drawn_at draws.old.stream most draws.old.place in
        sent.payload_of field.now.under field.now.number kept.0 kept.1 drawn (bytes_of (plain value.now))
        (Some (sent.sent_edges field.now.under leaves field.now.number domain.now drawn (edges_under domain.now (plain value.now)) 0)))) }
    ensures next { OnOk result (draws.new ≡ further draws.old (10 + 4 * length (edges_under domain.now (plain value.now)))) }
{
    let bytes = spelled_bytes(alloc, value)?;
    let own = own_draws(draws, most);
    let edges = ranged(alloc, field, leaves, own.factor, domain, value, draws)?;
    let sent = payload(alloc, field, kept, &own, bytes.slice(), Some(edges))?;
    Ok(sent)
}

/// What is sent of a value of a field, by how the field is kept.
#[tactic(auto, using(qe_command_parts::proofs::ValueLemmas::value_again))]
pub(crate) fn sent_value(
    alloc: Global,
    keyring: &Keyring,
    leaves: bool,
    number: u32,
    most: u64,
    value: &Value,
    draws: &mut Draws,
) -> Result<SentCell, NoMemory>
    requires can { CanSendValue (kind_at keyring.now.schema number) (plain value.now) }
    requires place { draws.old.place + 270 < 2 ^ 68 }
    requires most { most < 2 ^ 63 }
    ensures sent { IfOk result (λ cell. cell ≡ sent.sent_value keyring.now leaves number
        (drawn_at draws.old.stream most draws.old.place) (kind_at keyring.now.schema number) (plain value.now)) }
    ensures next { OnOk result (draws.new ≡ further draws.old (value_draws (kind_at keyring.now.schema number) (plain value.now))) }
{
    match keyring.kind_at(number) {
        FieldKind::Plain => Ok(SentCell::Plain(value.copy()?)),
        FieldKind::Equality {
            key_id,
            value_kind,
            ..
        } => {
            let field = keyring.encrypted(number);
            let kept = (key_id, value_kind);
            let payload = equality(alloc, &field, kept, most, value, draws)?;
            Ok(SentCell::Payload(payload))
        }
        FieldKind::Range {
            key_id,
            value_kind,
            domain,
            ..
        } => {
            let field = keyring.encrypted(number);
            let kept = (key_id, value_kind);
            let payload = range(alloc, &field, leaves, kept, &domain, most, value, draws)?;
            Ok(SentCell::Payload(payload))
        }
    }
}
