// A node read as a number, and wet weight from dry weight.
#![tactic(auto)]

ghost use Rattle.std.specs.Prelude.{◌≡◌, take};
ghost use Rattle.definition.specs.Node.{row};
ghost use Rattle.definition.specs.Build.{Lent, lent, words_at};
ghost use Rattle.definition.specs.Weight.{row_reading, get_reading, weigh_nodes, wet_weight, read_done, weighed_done, reading_answer, weighed_answer};
ghost use Rattle.definition.specs.Weight as W;
ghost use Rattle.call_check.specs.Tests.{Says};
ghost use Rattle.weight.specs.Tables.{Inside, Has};

use bits::signed;
use call_check::{begin_handle, begin_handles};
use decimal::read_decimal;
use definition::{Counts, Node, Reading, Refusal, Weighing};

// ---- a node's reading

// What node h reads as; its table and the bytes stored are those of a well-formed arena.
fn read_node(nodes: &[u32], bytes: &[u8], stored: usize, h: u32) -> Reading
    requires { Inside nodes.now bytes.now stored h }
    ensures { result ≡ row_reading (take stored bytes.now) (row (words_at nodes.now h)) }
{
    let at = h as usize * Node::WIDTH;
    match nodes[at] {
        Node::FIXNUM => Reading::Whole(signed(nodes[at + Node::VALUE])),
        Node::FLOAT => {
            let start = nodes[at + Node::START] as usize;
            let end = start + nodes[at + Node::LENGTH] as usize;
            read_decimal(&bytes[start..end])
        }
        _ => Reading::NotANumber,
    }
}

// What a node reads as: 1, 2, 13; another kind or text is not a number.
pub fn reading(
    nodes: &[u32],
    references: &[u32],
    bytes: &[u8],
    counts: Counts,
    h: u32,
) -> Result<Reading, Refusal>
    ensures { reading_answer result ≡ read_done (get_reading h (lent nodes.now references.now bytes.now counts)) }
{
    begin_handle(nodes, references, bytes, counts, h)?;
    Ok(read_node(nodes, bytes, counts.bytes, h))
}

// ---- a weighing

// Node h as a double: 17 for what is no number.
fn double_at(nodes: &[u32], bytes: &[u8], stored: usize, h: u32) -> Result<f64, Refusal>
    requires { Inside nodes.now bytes.now stored h }
    ensures { (L : Lent) → Has L nodes.now bytes.now stored h → Says result (W.double_at h) L }
{
    match read_node(nodes, bytes, stored, h) {
        Reading::Whole(n) => Ok(n as f64),
        Reading::Double(x) => Ok(x),
        Reading::NotANumber => Err(Refusal::NotAWeight(h)),
    }
}

// Node h as a dry weight: 17 below zero too.
fn dry_at(nodes: &[u32], bytes: &[u8], stored: usize, h: u32) -> Result<f64, Refusal>
    requires { Inside nodes.now bytes.now stored h }
    ensures { (L : Lent) → Has L nodes.now bytes.now stored h → Says result (W.dry_at h) L }
{
    let x = double_at(nodes, bytes, stored, h)?;
    if x < 0.0 {
        return Err(Refusal::NotAWeight(h));
    }
    Ok(x)
}

// 18 for moisture below 0 or above 0.5.
fn check_moisture(x: f64) -> Result<(), Refusal>
    ensures { (L : Lent) → Says result (W.check_moisture x) L }
{
    if (x < 0.0) | (0.5 < x) {
        return Err(Refusal::BadMoisture);
    }
    Ok(())
}

// Dry weight, moisture, and wet weight, rounded at each of the two operations.
fn weigh(dry: f64, moisture: f64) -> Weighing
    ensures { result ≡ W.weigh dry moisture }
{
    Weighing {
        dry,
        moisture,
        wet: dry / (1.0 - moisture),
    }
}

// 17 for each node, the dry one whole before the other, then 18.
fn weigh_nodes(
    nodes: &[u32],
    bytes: &[u8],
    stored: usize,
    dry: u32,
    moisture: u32,
) -> Result<Weighing, Refusal>
    requires { Inside nodes.now bytes.now stored dry × Inside nodes.now bytes.now stored moisture }
    ensures { (L : Lent) → Has L nodes.now bytes.now stored dry → Has L nodes.now bytes.now stored moisture → weighed_answer result ≡ weighed_done (weigh_nodes dry moisture L) }
{
    let d = dry_at(nodes, bytes, stored, dry)?;
    let m = double_at(nodes, bytes, stored, moisture)?;
    check_moisture(m)?;
    Ok(weigh(d, m))
}

// The weighing of a dry and a moisture node: 1, 2, 13 for each, 17 for each, 18.
pub fn wet_weight(
    nodes: &[u32],
    references: &[u32],
    bytes: &[u8],
    counts: Counts,
    dry: u32,
    moisture: u32,
) -> Result<Weighing, Refusal>
    ensures { weighed_answer result ≡ weighed_done (wet_weight dry moisture (lent nodes.now references.now bytes.now counts)) }
{
    begin_handles(nodes, references, bytes, counts, dry, moisture)?;
    weigh_nodes(nodes, bytes, counts.bytes, dry, moisture)
}
