ghost use Rattle.std.specs.Prelude.{◌≡◌, ◌++◌, ℕ, List, Ok};
ghost use Rattle.n41_types.specs.declared.attributes.Attrs.{Attrs};
ghost use Rattle.n41_xdr.specs.Format.{made};
ghost use Rattle.n41_xdr.specs.Lawful.{IsLawful, BeginsNoOther};
ghost use Rattle.n41_attr.specs.Bitmaps.{bitmap};
ghost use Rattle.n41_attr.specs.Attributes.{told, attrs_of, written, AttrsFit};

/// A law: bitmaps and told attributes are read just where they are spelled, and no spelling begins another.
pub fn attributes_are_lawful()
    ensures bitmaps { IsLawful bitmap }
    ensures attributes { IsLawful told }
    ensures one_spelling { BeginsNoOther told }
{}

/// A law: attributes that are written are read again, whatever follows them.
pub fn what_is_written_is_read()
    ensures fits { (a : Attrs) → AttrsFit a → told.Fits (written a) }
    ensures read { (a : Attrs) (rest : List ℕ) → AttrsFit a → made attrs_of told (told.spell (written a) ++ rest) ≡ Ok (a, rest) }
{}
