// A law that callers use in their proofs. It has no body.
ghost use Rattle.serde_json.specs.View.{view};
ghost use Rattle.pbx_json_meaning.specs.Trees.{HasTexts};

use serde_json::Value;

/// Each text and each key of a tree is UTF-8.
#[tactic(auto, using(crate::proofs::ValueTexts::value_has_texts))]
pub fn values_have_texts(_tree: &Value)
    ensures { HasTexts (view _tree.now) }
{}
