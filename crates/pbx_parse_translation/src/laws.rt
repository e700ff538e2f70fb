//! Laws of the records of messages.

ghost use Rattle.std.specs.Prelude.{◌≡◌, ◌≢◌, ◌<◌, ℕ, List as ListOf, Some, map, option_map};
ghost use Rattle.std.specs.List.{All, AllPairs, Contains};
ghost use Rattle.pbx_desc_records.specs.declared.message.DescriptorProto.{DescriptorProto};
ghost use Rattle.pbx_parse_tree.specs.declared.tree.Version.{Version};
ghost use Rattle.pbx_parse_tree.specs.Tree.{Body};
ghost use Rattle.pbx_parse_translation.specs.Synthetic.{name_with, fewest_x};
ghost use Rattle.pbx_parse_translation.specs.Messages.{body_items, scope_names, synthetic_oneofs, message_with};
ghost use Rattle.pbx_parse_translation.specs.Oneofs.{indexed_oneofs, own_oneofs};

/// The name of a synthetic oneof is free in its message.
pub fn synthetic_names_are_free()
    // It is none of the names in the message's scope.
    ensures free { (version : Version) (body : Body) →
        All (λ name. Contains (scope_names (body_items body)) name → ⊥) (synthetic_oneofs version (body_items body)) }
    // No two are the same.
    ensures apart { (version : Version) (body : Body) → AllPairs (λ a b. a ≢ b) (synthetic_oneofs version (body_items body)) }
    // Each name with fewer `X` is taken.
    ensures fewest { (taken : ListOf (ListOf ℕ)) (field : ListOf ℕ) (k : ℕ) → k < fewest_x taken field → Contains taken (name_with k field) }
{}

/// The index of each field of a message names its own oneof, and a field without one has no index. Written oneofs of one
/// name are not told apart here; linking refuses them.
pub fn indexes_name_own_oneofs()
    ensures { (version : Version) (name : ListOf ℕ) (body : Body) (types : ListOf DescriptorProto) →
        indexed_oneofs (message_with version name body types) ≡ map (option_map Some) (own_oneofs version (body_items body)) }
{}
