//! A source of the thin form, as its design.
ghost use Rattle.std.specs.Prelude.{◌≡◌, ◌≢◌, ◌≤◌, ◌^◌, ℕ, List, Bool, false, length, IsTrue, IfOk, IfErr, MatchResult};
ghost use Rattle.vod_thin_design.specs.Names.{HasPlainNames};
ghost use Rattle.vod_thin_design.specs.Netlist.{Netlist, IsAccepted};
ghost use Rattle.vod_thin_syntax.specs.Outcome.{IsRead};
ghost use Rattle.vod_thin_syntax.specs.View.{module_of};
ghost use Rattle.vod_thin.specs.Faults.{IsFault};
ghost use Rattle.vod_thin.specs.Machine.{read_expr};
ghost use Rattle.vod_thin.specs.Netlists.{design_by};
ghost use Rattle.vod_thin.specs.Thin.{IsThin, IsRefused};

use crate::judge::{Judge, judge_names, sooner};
use crate::netlist::Builder;
use crate::text::Text;
use crate::{ThinFault, let_go};
use std::alloc::{AllocError, Global};
use vod_thin_design::{Design, expr_by_operands};
use vod_thin_syntax::{
    Module, Sentence, inputs_are_few, names_are_identifiers, one_sentence, read_sentence,
};
use vod_token::one_token;

/// The design of a source of the thin form, or the least place where it isn't of it. The source has at most 1,048,576
/// bytes; where it is longer, it is handed over up to there and `more` says so.
///
/// A name that breaks a rule is refused where it stands: names of signals differ; names are declared before they are
/// used; each wire and output has one `assign`, which stands before the reads of its target; no clock is read; all
/// `always` wait for one input; and no register is assigned in two of them.
pub fn read_thin(alloc: Global, source: &[u8], more: bool) -> Result<Design, ThinFault>
    requires short { length source.now ≤ 2 ^ 20 }
    requires cut { IsTrue more → length source.now ≡ 2 ^ 20 }
    ensures thin { IfOk result (λ d. IsThin source.now d) }
    ensures plain { IfOk result (λ d. HasPlainNames d) }
    ensures whole { IfOk result (λ _. more ≡ false) }
    ensures refused { IfErr result (IsFault source.now more) }

    // A source of the form has its design, unless memory runs out; any other is refused at its least place.
    ensures accepts { (d : Netlist) → IsThin source.now d → more ≡ false →
        MatchResult result (λ e. e ≡ d) (λ fault. fault ≡ ThinFault.Memory) }
    ensures refuses { (place : ℕ) → IsRefused source.now more place →
        MatchResult result (λ _. ⊥) (λ fault. (fault ≢ ThinFault.Memory) → fault ≡ ThinFault.At place) }
{
    // A source reads as one module at most, and is refused at one place.
    one_sentence();
    read(alloc, source, more)
}

/// A source has one design.
pub fn one_design()
    ensures { (source : List ℕ) (d e : Netlist) → IsThin source d → IsThin source e → d ≡ e }
{
    // A source reads as one module at most, and is refused at one place.
    one_sentence();
}

/// A source of the form isn't refused, and a source is refused at one place.
pub fn one_place()
    ensures thin { (source : List ℕ) (d : Netlist) (place : ℕ) → IsThin source d → IsRefused source false place → ⊥ }
    ensures refused { (source : List ℕ) (more : Bool) (place other : ℕ) →
        IsRefused source more place → IsRefused source more other → place ≡ other }
{
    // A source reads as one module at most, and is refused at one place.
    one_sentence();
}

/// The inputs of a design that was read have plain names, which differ.
pub fn plain_names()
    ensures { (source : List ℕ) (d : Netlist) → length source ≤ 2 ^ 20 → IsThin source d → HasPlainNames d }
{
    // What an expression reads, by its operands; and a token's form and the names of a sentence, by which names are plain.
    expr_by_operands();
    one_token();
    names_are_identifiers();
}

/// A design that was read has at most 256 inputs.
pub fn few_inputs()
    ensures { (source : List ℕ) (d : Netlist) → IsThin source d → length d.inputs ≤ 256 }
{
    // A sentence has at most 256 inputs.
    inputs_are_few();
}

fn read(alloc: Global, source: &[u8], more: bool) -> Result<Design, ThinFault>
    requires short { length source.now ≤ 2 ^ 20 }
    requires cut { IsTrue more → length source.now ≡ 2 ^ 20 }
    ensures thin { IfOk result (λ d. IsThin source.now d) }
    ensures plain { IfOk result (λ d. HasPlainNames d) }
    ensures whole { IfOk result (λ _. more ≡ false) }
    ensures refused { IfErr result (IsFault source.now more) }
{
    match read_sentence(alloc, source, more) {
        Ok(sentence) => sentence_design(alloc, source, &sentence),
        Err(fault) => Err(ThinFault::from(fault)),
    }
}

// The design of a sentence, or its first fault.
fn sentence_design(alloc: Global, source: &[u8], sentence: &Sentence) -> Result<Design, ThinFault>
    requires short { length source.now ≤ 2 ^ 20 }
    requires read { IsRead source.now sentence.now }
    ensures thin { IfOk result (λ d. IsThin source.now d) }
    ensures plain { IfOk result (λ d. HasPlainNames d) }
    ensures refused { IfErr result (IsFault source.now false) }
{
    // What an expression reads, by its operands; and a token's form and the names of a sentence, by which names are plain.
    expr_by_operands();
    one_token();
    names_are_identifiers();
    let text = Text {
        source,
        tokens: &sentence.tokens,
    };
    let judged = judge_names(alloc, &text, &sentence.module)?;
    match sooner(sentence.limit, judged.fault) {
        Some(place) => {
            let_go(judged);
            Err(ThinFault::At(place))
        }
        None => {
            let built = build(alloc, text, &judged.names, &sentence.module);
            let_go(judged);
            let design = built?;
            Ok(design)
        }
    }
}

// The design of a module whose names keep the rules.
fn build<'s>(
    alloc: Global,
    text: Text<'s>,
    names: &Judge<'s>,
    parsed: &Module,
) -> Result<Design, AllocError>
    requires few { length names.now.signals ≤ 2 ^ 25 }
    requires accepted { IsAccepted (design_by names.now.signals names.now.clocks (read_expr names.now.signals) (module_of text.source.now text.tokens.now parsed.now)) }
    ensures { IfOk result (λ d. d ≡ design_by names.now.signals names.now.clocks (read_expr names.now.signals) (module_of text.entry.source.now text.entry.tokens.now parsed.now)) }
{
    let builder = Builder {
        alloc,
        text,
        signals: &names.signals,
        clocks: &names.clocks,
    };
    let parts = builder.parts(parsed)?;
    Ok(Design::of(parts))
}
