//! Sources.
ghost use Rattle.std.specs.Prelude.{◌≡◌, ◌≢◌, List, length, All, None, IfOk, IfErr, MatchResult};
ghost use Rattle.vod_token.specs.Nesting.{deep_at};
ghost use Rattle.vod_token.specs.Span.{IsTokenOf};
ghost use Rattle.vod_tree.specs.declared.«module».Tree.{Tree};
ghost use Rattle.vod_expr.specs.Grammar.{Lexeme, lexemes};
ghost use Rattle.vod_expr.specs.declared.ParseFault.{ParseFault};
ghost use Rattle.vod_grammar.specs.State.{Gives};
ghost use Rattle.vod_parse.specs.Depth.{IsTooDeep};
ghost use Rattle.vod_parse.specs.Modules.{IsSource};
ghost use Rattle.vod_parse.specs.ModulesForm.{source_form};
ghost use Rattle.vod_parse.specs.Whole.{IsWhole, Refuses};

use crate::laws::sources_are_exact;
use crate::modules;
use std::alloc::Global;
use vod_expr::{ParseFault, source_lexemes};
use vod_grammar::Reader;
use vod_token::Token;
use vod_tree::Tree;

/// The tree of a source: exactly where its tokens are a sentence of the grammar in which no statement has a depth past 64. Else it
/// is refused at the first token such that no sentence begins with the tokens up to it (`At`), where the tokens end too early
/// (`End`), or at the first token that begins a statement of depth 65 (`Statement`). The nesting of the tokens stays within 64, so
/// no call goes deeper than 64 statements and 64 brackets; `tokens` of `vod_token` gives no others (`shallow`).
pub fn read_source(alloc: Global, source: &[u8], tokens: &[Token]) -> Result<Tree, ParseFault>
    requires tokens { All (IsTokenOf source.now) tokens.now }
    requires nested { deep_at source.now tokens.now ≡ None }
    ensures ok { IfOk result (λ tree. IsWhole IsSource IsTooDeep (lexemes source.now tokens.now) tree) }
    ensures err { IfErr result (λ fault. (fault ≢ ParseFault.Memory) → Refuses IsSource IsTooDeep (lexemes source.now tokens.now) fault) }

    // What is a source is read, unless memory runs out; what isn't is refused there and in no other way.
    ensures accepts { (tree : Tree) → IsWhole IsSource IsTooDeep (lexemes source.now tokens.now) tree →
        MatchResult result (λ read. read ≡ tree) (λ fault. fault ≡ ParseFault.Memory) }
    ensures refuses { (fault : ParseFault) → Refuses IsSource IsTooDeep (lexemes source.now tokens.now) fault →
        MatchResult result (λ read. ⊥) (λ other. (other ≢ ParseFault.Memory) → other ≡ fault) }
{
    // Sources are read exactly by their form; and a source's tokens are lexemes, of which that is said.
    sources_are_exact();
    source_lexemes();
    read(alloc, source, tokens)
}

// The same, as the reader finds it.
fn read(alloc: Global, source: &[u8], tokens: &[Token]) -> Result<Tree, ParseFault>
    requires tokens { All (IsTokenOf source.now) tokens.now }
    requires nested { deep_at source.now tokens.now ≡ None }
    ensures { (rest : List Lexeme) × Gives result rest ((source_form (length tokens.now)).read (lexemes source.now tokens.now)) }
{
    let reader = Reader {
        alloc,
        source,
        tokens,
    };
    let mut at = 0;
    modules::source(reader, &mut at)
}
