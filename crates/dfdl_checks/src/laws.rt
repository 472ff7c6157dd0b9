// Laws of the definitions that the contracts cite. The calls do nothing.
ghost use Rattle.std.specs.Prelude.{◌≡◌, ◌||◌, ℕ, List, length, ◌<◌, ◌≤◌, Some, None, false, IsTrue, IsSome, codes};
ghost use Rattle.dfdl_forms.specs.Types.{form_of};
ghost use Rattle.dfdl_forms.specs.declared.encoding.Encoding.{Encoding};
ghost use Rattle.dfdl_literals.specs.Lists.{matches_nothing};
ghost use Rattle.dfdl_terms.specs.Occurs.{occurs_once};
ghost use Rattle.dfdl_terms.specs.Rows.{IsPrimitive, IsWritten, most_length};
ghost use Rattle.dfdl_terms.specs.declared.row.Primitive.{Primitive};
ghost use Rattle.dfdl_terms.specs.declared.row.Primitive.TheVariants.{Default};
ghost use Rattle.dfdl_terms.specs.declared.text.DefaultForm.{DefaultForm};
ghost use Rattle.dfdl_scope.specs.Scoping.{Element, told};
ghost use Rattle.dfdl_checks.specs.Alike.{AreAlikeChains, IsAlike};
ghost use Rattle.dfdl_checks.specs.Boxes.{is_explicit_complex, size_of_box};
ghost use Rattle.dfdl_checks.specs.Delimiters.{IsDelimiterOf, IsSeparatorOf, delimiters_of, has_delimiter, is_separated, no_delimiters};
ghost use Rattle.dfdl_checks.specs.Encodings.{encoding_told};
ghost use Rattle.dfdl_checks.specs.Forms.{IsWhole};
ghost use Rattle.dfdl_checks.specs.Framing.{framing_of};
ghost use Rattle.dfdl_checks.specs.Judged.{Judged};
ghost use Rattle.dfdl_checks.specs.Keys.{is_keyed, key_expression, keys_of};
ghost use Rattle.dfdl_checks.specs.Nils.{lacks_literals};
ghost use Rattle.dfdl_checks.specs.Measures.{count_expression, is_measured_element, measure_of};
ghost use Rattle.dfdl_checks.specs.Occurrences.{is_counted_by_expression, occurrences_of};
ghost use Rattle.dfdl_checks.specs.Numbers.{IsBinaryValue, IsTextOrBytesValue, primitive_of, type_of};
ghost use Rattle.dfdl_checks.specs.Pads.{has_character, is_padded_text, pad_at, single};
ghost use Rattle.dfdl_checks.specs.Patterns.{length_pattern, pattern_encoding, pattern_prefix};
ghost use Rattle.dfdl_checks.specs.Prefixes.{is_integer, prefix_of};
ghost use Rattle.dfdl_checks.specs.Representations.{no_representations, representations_of};
ghost use Rattle.dfdl_checks.specs.Rules.{breach_of_component, first_breach, rules};
ghost use Rattle.dfdl_checks.specs.Subjects.{is_binary, is_by_pattern, is_choice, is_element, is_hex_binary, is_nillable, is_prefixed, is_sequence, is_simple, is_text, simple_of, told_at};
ghost use Rattle.dfdl_checks.specs.Writings.{writing_of};
ghost use Rattle.dfdl_checks.specs.declared.delimiters.Delimiting.{Delimiting};
ghost use Rattle.dfdl_checks.specs.declared.delimiters.Separating.{Separating};
ghost use Rattle.dfdl_checks.specs.declared.prefixes.PrefixForm.{PrefixForm};
ghost use Rattle.dfdl_checks.specs.declared.purpose.Purpose.TheVariants.{Parsing, Unparsing};
ghost use Rattle.dfdl_checks.specs.declared.subject.Kind.TheVariants.{ComplexElement};

use dfdl_number_pattern::laws::texts_spell_one_pattern;

/// A simple element without a breach has a primitive, and so has the type of a prefix. The properties of a binary number or
/// boolean are those of one, and those of a text or of bytes are theirs.
pub fn sound_elements_have_primitives()
    ensures primitive { (j : Judged) → first_breach rules j ≡ None → IsTrue (is_simple j.kind) → IsSome (primitive_of j) }
    ensures binary { (j : Judged) → first_breach rules j ≡ None → IsTrue (is_binary j) → IsBinaryValue j }
    ensures others { (j : Judged) → first_breach rules j ≡ None → IsTrue (is_text j || is_hex_binary j.kind) → IsTextOrBytesValue j }
{}

/// A text without a breach that is padded or trimmed has a single pad character, one of its encoding.
pub fn sound_texts_have_pad_characters()
    ensures single { (j : Judged) → first_breach rules j ≡ None → IsTrue (is_padded_text j) → IsSome (single (pad_at j)) }
    ensures encoded { (j : Judged) (e : Encoding) (c : ℕ) → first_breach rules j ≡ None → IsTrue (is_padded_text j)
        → encoding_told (told_at j (codes "encoding")) ≡ Some e → single (pad_at j) ≡ Some c → IsTrue (has_character e c) }
{}

/// An element with a length prefix has, where neither it nor the type of its prefix has a breach, a prefix for parsing.
pub fn sound_elements_have_prefixes()
    ensures { (j : Judged) → breach_of_component j ≡ None → j.purpose ≡ Parsing → IsTrue (is_prefixed j) → IsSome (prefix_of j) }
{}

/// An element whose length is by a pattern has, where it breaks no rule, one for parsing.
pub fn sound_elements_have_patterns()
    ensures { (j : Judged) → first_breach rules j ≡ None → j.purpose ≡ Parsing → IsTrue (is_element j.kind) → IsTrue (is_by_pattern j)
        → IsSome (pattern_prefix j) }
{}

/// A pattern that tells a length, whether its component breaks rules or not, keeps the bounds of its form, stands before a content
/// without a length prefix, and is there for parsing alone.
pub fn patterns_stand_alone()
    ensures bounded { (j : Judged) (f : PrefixForm) → pattern_prefix j ≡ Some f → IsPrimitive f.primitive }
    ensures alone { (j : Judged) (f : PrefixForm) → pattern_prefix j ≡ Some f → prefix_of j ≡ None }
    ensures parsing { (j : Judged) → j.purpose ≡ Unparsing → pattern_prefix j ≡ None }
{}

/// A component with a primitive, whether it breaks rules or not, is an element of the primitive's type, or a prefix of it, and
/// the primitive keeps the bounds of that type.
pub fn primitives_are_bounded()
    ensures bounded { (j : Judged) (p : Primitive) → primitive_of j ≡ Some p → IsPrimitive p }
    ensures kind { (j : Judged) (p : Primitive) → primitive_of j ≡ Some p → simple_of j.kind ≡ Some (type_of p) }
{
    texts_spell_one_pattern();
}

/// A length prefix, whether its component breaks rules or not, is read as an integer, by a primitive that keeps its bounds, and
/// for parsing alone.
pub fn prefixes_are_bounded()
    ensures bounded { (j : Judged) (f : PrefixForm) → prefix_of j ≡ Some f → IsPrimitive f.primitive }
    ensures integer { (j : Judged) (f : PrefixForm) → prefix_of j ≡ Some f → IsTrue (is_integer (form_of (type_of f.primitive))) }
    ensures parsing { (j : Judged) → j.purpose ≡ Unparsing → prefix_of j ≡ None }
{
    texts_spell_one_pattern();
}

/// The nil representation of a component, whether it breaks rules or not, keeps the bounds of its form; so do the empty ones of its
/// occurrences, where their value is one of characters. For unparsing there is none of them.
pub fn representations_are_bounded()
    ensures nil { (j : Judged) (p : Primitive) → (representations_of j).nil ≡ Some p → IsPrimitive p }
    ensures required { (j : Judged) (p : Primitive) → (representations_of j).required.empty ≡ Some p
        → ((form : DefaultForm) → p ≡ Default form → IsWritten form.value) → IsPrimitive p }
    ensures where_tried { (j : Judged) (p : Primitive) → (representations_of j).where_tried.empty ≡ Some p
        → ((form : DefaultForm) → p ≡ Default form → IsWritten form.value) → IsPrimitive p }
    ensures parsing { (j : Judged) → j.purpose ≡ Unparsing → representations_of j ≡ no_representations }
{
    texts_spell_one_pattern();
}

/// A simple element that may be nil has a nil representation for parsing, where it breaks no rule.
pub fn sound_nillables_have_nil()
    ensures { (j : Judged) → first_breach rules j ≡ None → j.purpose ≡ Parsing → IsTrue (is_nillable j) → IsSome (representations_of j).nil }
{}

/// A component that breaks no rule tells, for parsing, each delimiter that it has, in an encoding which has the characters of its literals.
pub fn sound_components_have_delimiters()
    ensures initiator { (j : Judged) → first_breach rules j ≡ None → j.purpose ≡ Parsing → IsTrue (has_delimiter j (codes "initiator"))
        → IsSome (delimiters_of j).initiator }
    ensures terminator { (j : Judged) → first_breach rules j ≡ None → j.purpose ≡ Parsing → IsTrue (has_delimiter j (codes "terminator"))
        → IsSome (delimiters_of j).terminator }
    ensures separator { (j : Judged) → first_breach rules j ≡ None → j.purpose ≡ Parsing → IsTrue (is_separated j)
        → IsSome (delimiters_of j).separator }
    ensures encoded { (j : Judged) (d : Delimiting) → first_breach rules j ≡ None → IsDelimiterOf j d
        → lacks_literals (Some d.list.encoding) d.list.literals ≡ false }
    ensures encoded_separator { (j : Judged) (d : Separating) → first_breach rules j ≡ None → IsSeparatorOf j d
        → lacks_literals (Some d.list.encoding) d.list.literals ≡ false }
{}

/// A delimiter of a component, whether it breaks rules or not, has literals, and none of them can match nothing. Sequences alone have
/// separators. For unparsing there is no delimiter.
pub fn delimiters_have_literals()
    ensures some { (j : Judged) (d : Delimiting) → IsDelimiterOf j d → 0 < length d.list.literals }
    ensures matching { (j : Judged) (d : Delimiting) → IsDelimiterOf j d → matches_nothing d.list.literals ≡ false }
    ensures some_separators { (j : Judged) (d : Separating) → IsSeparatorOf j d → 0 < length d.list.literals }
    ensures matching_separators { (j : Judged) (d : Separating) → IsSeparatorOf j d → matches_nothing d.list.literals ≡ false }
    ensures sequences { (j : Judged) (d : Separating) → IsSeparatorOf j d → IsTrue (is_sequence j.kind) }
    ensures parsing { (j : Judged) → j.purpose ≡ Unparsing → delimiters_of j ≡ no_delimiters }
{}

/// The primitives that are built for unparsing are whole unsigned integers.
pub fn primitives_for_unparsing_are_whole()
    ensures { (j : Judged) (p : Primitive) → j.purpose ≡ Unparsing → primitive_of j ≡ Some p → IsWhole p }
{}

/// A choice is refused for unparsing.
pub fn choices_for_unparsing_are_refused()
    ensures { (j : Judged) → first_breach rules j ≡ None → j.purpose ≡ Unparsing → is_choice j.kind ≡ false }
{}

/// Elements that are written occur once.
pub fn elements_for_unparsing_occur_once()
    ensures { (j : Judged) → j.purpose ≡ Unparsing → occurrences_of j ≡ occurs_once }
{}

/// A component with a box, whether it breaks rules or not, is a complex element for parsing, and the box
/// isn't past the greatest length. Such an element has one where it has a length of its own and breaks
/// no rule.
pub fn boxes_are_bounded()
    ensures bounded { (j : Judged) (bits : ℕ) → size_of_box j ≡ Some bits → bits ≤ most_length }
    ensures kind { (j : Judged) (bits : ℕ) → size_of_box j ≡ Some bits → j.kind ≡ ComplexElement }
    ensures parsing { (j : Judged) → j.purpose ≡ Unparsing → size_of_box j ≡ None }
    ensures sound { (j : Judged) → first_breach rules j ≡ None → j.purpose ≡ Parsing → IsTrue (is_explicit_complex j) → IsSome (size_of_box j) }
{}

/// An element whose length is by an expression has one for parsing, and so has one that occurs as often as an expression tells and
/// breaks no rule; for unparsing there is neither.
pub fn lengths_and_counts_are_told()
    ensures measure { (j : Judged) → j.purpose ≡ Parsing → IsTrue (is_measured_element j) → IsSome (measure_of j) }
    ensures count { (j : Judged) → first_breach rules j ≡ None → j.purpose ≡ Parsing → IsTrue (is_counted_by_expression j) → IsSome (count_expression j) }
    ensures unmeasured { (j : Judged) → j.purpose ≡ Unparsing → measure_of j ≡ None }
    ensures uncounted { (j : Judged) → j.purpose ≡ Unparsing → count_expression j ≡ None }
{}

/// A choice that is told a key has an expression of it for parsing, and for unparsing there is none. A branch of such a choice that breaks no
/// rule has a key, and none twice nor one of a branch before it.
pub fn keys_are_told()
    ensures key { (j : Judged) → j.purpose ≡ Parsing → IsTrue (is_keyed j) → IsSome (key_expression j) }
    ensures unkeyed { (j : Judged) → j.purpose ≡ Unparsing → key_expression j ≡ None }
    ensures some { (j : Judged) → first_breach rules j ≡ None → IsTrue j.standing.needs_key → 0 < length (keys_of j) }
    ensures apart { (j : Judged) → first_breach rules j ≡ None → IsTrue j.standing.needs_key → j.standing.repeats_key ≡ false }
{}

/// Components whose chains give the same, name by name, and those of the types of their prefixes, have the same breach, the same
/// primitive, the same other representations, the same fill, the same delimiters, the same box, the same prefix, the same pattern of
/// their length, and occur as often; the same expressions tell how long they are, how often they occur and which branch is taken, and they have the same keys. They
/// are written alike.
pub fn alike_components_are_judged_alike()
    ensures breach { (a b : Judged) → IsAlike a b → breach_of_component a ≡ breach_of_component b }
    ensures primitive { (a b : Judged) → IsAlike a b → primitive_of a ≡ primitive_of b }
    ensures representations { (a b : Judged) → IsAlike a b → representations_of a ≡ representations_of b }
    ensures framing { (a b : Judged) → IsAlike a b → framing_of a ≡ framing_of b }
    ensures delimiters { (a b : Judged) → IsAlike a b → delimiters_of a ≡ delimiters_of b }
    ensures size { (a b : Judged) → IsAlike a b → size_of_box a ≡ size_of_box b }
    ensures prefix { (a b : Judged) → IsAlike a b → prefix_of a ≡ prefix_of b }
    ensures text { (a b : Judged) → IsAlike a b → length_pattern a ≡ length_pattern b }
    ensures encoding { (a b : Judged) → IsAlike a b → pattern_encoding a ≡ pattern_encoding b }
    ensures pattern { (a b : Judged) → IsAlike a b → pattern_prefix a ≡ pattern_prefix b }
    ensures occurrences { (a b : Judged) → IsAlike a b → occurrences_of a ≡ occurrences_of b }
    ensures measure { (a b : Judged) → IsAlike a b → measure_of a ≡ measure_of b }
    ensures count { (a b : Judged) → IsAlike a b → count_expression a ≡ count_expression b }
    ensures key { (a b : Judged) → IsAlike a b → key_expression a ≡ key_expression b }
    ensures keys { (a b : Judged) → IsAlike a b → keys_of a ≡ keys_of b }
    ensures writing { (a b : Judged) → IsAlike a b → writing_of a ≡ writing_of b }
{}

/// Chains that give the same, name by name, tell the same of each property.
pub fn alike_chains_tell_the_same()
    ensures { (xs ys : List Element) (name : List ℕ) → AreAlikeChains xs ys → told xs name ≡ told ys name }
{}
