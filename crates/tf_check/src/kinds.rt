//! Which kind of certificate is for which class.
ghost use Rattle.std.specs.Prelude.{◌≡◌, IsTrue};
ghost use Rattle.tf_model.specs.ClassTable.{is_sum};
ghost use Rattle.tf_check.specs.Kinds.{takes_last_of, takes_load, takes_machine, takes_one_job};
ghost use Rattle.tf_check.specs.Kinds.{takes_pairs, takes_ranks, takes_split, takes_window};

use tf_model::class::Class;

pub(crate) fn takes_load(class: Class) -> bool
    ensures { result ≡ takes_load class }
{
    class.is_span() && class.is_parallel()
}

pub(crate) fn takes_one_job(class: Class) -> bool
    ensures { result ≡ takes_one_job class }
{
    class.is_span() && !class.is_flow()
}

pub(crate) fn takes_pairs(class: Class) -> bool
    ensures kind { result ≡ takes_pairs class }
    ensures sum { IsTrue result → IsTrue (is_sum class) }
{
    class.is_sum() && class.is_single()
}

pub(crate) fn takes_machine(class: Class) -> bool
    ensures { result ≡ takes_machine class }
{
    class.is_span() && class.is_shop() && !class.is_flow()
}

pub(crate) fn takes_split(class: Class) -> bool
    ensures { result ≡ takes_split class }
{
    class.is_span() && class.is_flow()
}

pub(crate) fn takes_window(class: Class) -> bool
    ensures { result ≡ takes_window class }
{
    class.is_due() && class.is_single() && class.is_released()
}

pub(crate) fn takes_ranks(class: Class) -> bool
    ensures kind { result ≡ takes_ranks class }
    ensures sum { IsTrue result → IsTrue (is_sum class) }
{
    class.is_sum() && class.is_parallel() && !class.may_break()
}

pub(crate) fn takes_last_of(class: Class) -> bool
    ensures { result ≡ takes_last_of class }
{
    !class.is_sum() && class.is_single() && !class.is_released()
}
