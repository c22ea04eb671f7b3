ghost use Rattle.heco_syntax.specs.declared.tree.Source.{Source};
ghost use Rattle.heco_types.specs.Tried.{EachNameIsTried};

/// The rules are tried at each name of a source but the function's own.
pub fn each_name_is_tried()
    ensures { (x : Source) → EachNameIsTried x }
{}
