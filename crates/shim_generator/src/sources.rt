// The sources, written piece by piece with the size between.
ghost use Rattle.std.specs.Prelude.{◌≡◌, ◌≤◌, IfOk, length};
ghost use Rattle.shim_generator.specs.Sources.{generated};
ghost use Rattle.shim_generator.specs.declared.kind.Kind.TheVariants as kinds;

use crate::kind::Kind;
use shim_base::{List, NoMemory, push_decimal};
use std::alloc::Global;

fn pipe(alloc: Global, size: u64) -> Result<List<u8>, NoMemory>
    ensures { IfOk result (λ text. text ≡ generated kinds.Pipe size) }
{
    let mut text = List::new(alloc);
    text.extend_from_slice(
        b"void main(ostream &o) {
int a; int b; int s;
{ int k; while (k < ",
    )?;
    push_decimal(&mut text, size)?;
    text.extend_from_slice(
        b") { next a = k; k = k + 1; } }
par { int k; while (k < ",
    )?;
    push_decimal(&mut text, size)?;
    text.extend_from_slice(
        b") { next a; next b = a * 3; k = k + 1; } }
par { int k; while (k < ",
    )?;
    push_decimal(&mut text, size)?;
    text.extend_from_slice(
        b") { next b; s = (s + b) % 1000000; k = k + 1; } }
put o, s;
put o, s >> 8;
}
",
    )?;
    Ok(text)
}

#[tactic(auto, using(crate::proofs::Pieces::tree_pieces))]
fn tree(alloc: Global, size: u64) -> Result<List<u8>, NoMemory>
    ensures { IfOk result (λ text. text ≡ generated kinds.Tree size) }
{
    let mut text = List::new(alloc);
    text.extend_from_slice(
        b"void node(int n, int &r) {
if (n < 2) { r = 1; } else {
int a; int b;
node(n / 2, a); par node(n - n / 2, b);
r = a + b;
}
}
void main() { int r; node(",
    )?;
    push_decimal(&mut text, size)?;
    text.extend_from_slice(
        b", r); next r; }
",
    )?;
    Ok(text)
}

#[tactic(auto, using(crate::proofs::Pieces::storm_pieces))]
fn storm(alloc: Global, size: u64) -> Result<List<u8>, NoMemory>
    ensures { IfOk result (λ text. text ≡ generated kinds.Storm size) }
{
    let mut text = List::new(alloc);
    text.extend_from_slice(
        b"void main() {
int c; int k;
while (k < ",
    )?;
    push_decimal(&mut text, size)?;
    text.extend_from_slice(
        b") {
try { { next c = k; throw T; } par { while (1) { next c; } } } catch (T) { k = k + 1; }
}
}
",
    )?;
    Ok(text)
}

/// The source of a kind and a size: the text of a whole program, of at most 1,048,576 bytes.
pub fn generate(alloc: Global, kind: Kind, size: u64) -> Result<List<u8>, NoMemory>
    ensures text { IfOk result (λ text. text ≡ generated kind size) }
    ensures short { IfOk result (λ text. length text ≤ 1048576) }
{
    match kind {
        Kind::Pipe => pipe(alloc, size),
        Kind::Tree => tree(alloc, size),
        Kind::Storm => storm(alloc, size),
    }
}
