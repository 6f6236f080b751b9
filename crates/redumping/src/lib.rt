// What the program redump writes: an input loaded, and its arena dumped.
#![tactic(auto)]

ghost use Rattle.std.specs.Prelude.{◌≡◌};
ghost use Rattle.definition.specs.Load.{lists};
ghost use Rattle.definition.specs.Dump.{dump_answer, dump_call_of};
ghost use Rattle.console.specs.Call.{input_call};
ghost use Rattle.redumping.specs.Redump.{redump_call};

use console::{LIMIT, NUMBERED, Output, Tables, load_input, write_refusal};
use definition::Refusal;
use dump::dump;
use std::fmt;

// The input's dump, put into `output`; or the refusal of load, or of dump.
pub fn redump(
    input: &[u8],
    nodes: &mut [u32],
    references: &mut [u32],
    bytes: &mut [u8],
    symbols: &mut [u32],
    objects: &mut [u32],
    scratch: &mut [u32],
    output: &mut [u8],
) -> Result<usize, Refusal>
    ensures output_after { dump_call_of (dump_answer result).answer (dump_answer result).written scratch.new output.new ≡ redump_call input.now (lists nodes.old references.old bytes.old symbols.old objects.old) scratch.old output.old }
    ensures objects_after { lists nodes.new references.new bytes.new symbols.new objects.new ≡ (input_call input.now (lists nodes.old references.old bytes.old symbols.old objects.old)).lent }
{
    let loaded = load_input(input, nodes, references, bytes, symbols, objects)?;
    dump(
        nodes,
        references,
        bytes,
        loaded.counts,
        scratch,
        output,
        LIMIT,
    )
}

// The input's dump, or the refusal's row.
pub fn write_redump(out: &mut Output<'_>, input: &[u8]) -> fmt::Result {
    let mut tables = Tables::new();
    let mut scratch = [0u32; NUMBERED];
    // 65,536 bytes hold every dump of the programs' tables, which takes at most 2 + 16,384 + 1,000 * 13 + 4,001 * 4 = 45,390:
    // the header; the byte strings, each laid out once; for each node its kind, `C` and 4 for a link as its class or name, and
    // `I`, a length and a count of 3 bytes each or, in a hash, a count and 4 for a link as its default (a fixnum's 6 are fewer);
    // the root and each reference as a link of 4.
    let mut output = io::large_buffer();
    match redump(
        input,
        &mut tables.nodes,
        &mut tables.references,
        &mut tables.bytes,
        &mut tables.symbols,
        &mut tables.objects,
        &mut scratch,
        &mut output,
    ) {
        Ok(n) => out.put_all(&output[..n.min(output.len())]),
        Err(q) => write_refusal(out, q),
    }
}
