// Laws of the definitions. The calls do nothing.
ghost use Rattle.dfdl_expression_eval.specs.Asks.{Asks};
ghost use Rattle.dfdl_expression_eval.specs.Runs.{left_by};
ghost use Rattle.dfdl_vars.specs.Kept.{Kept};
ghost use Rattle.dfdl_vars.specs.Marks.{LeadsBack};
ghost use Rattle.dfdl_surroundings.specs.Around.{Around};
ghost use Rattle.dfdl_surroundings.specs.Answers.{answer_in, read_in};

/// A way back stays open behind an expression, and there is one to the variables as they are then.
pub fn ways_back()
    ensures stays { (base : Kept) (asks : Asks) (around : Around) → LeadsBack base around.variables
        → LeadsBack base (left_by answer_in read_in asks around).variables }
    ensures sound { (asks : Asks) (around : Around) → LeadsBack around.variables around.variables
        → LeadsBack (left_by answer_in read_in asks around).variables (left_by answer_in read_in asks around).variables }
{}
