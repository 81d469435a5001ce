// Whether the node table has a form at a number.
ghost use Rattle.std.specs.Prelude.{◌≡◌, ℕ, ◌<◌, ◌≤◌};
ghost use Rattle.keys.specs.Form.{is_never};
ghost use Rattle.node_table.specs.Forms.{form_of, table_most};

use node_table::forms;

// Whether the table has no form there, of so many steps.
pub fn is_none(forms: &[u16], steps: usize, form: usize) -> bool
    requires { form < table_most }
    ensures { (n : ℕ) → 1 ≤ n → result ≡ is_never (form_of forms.now steps n form) }
{
    steps == 0 || forms::row_at(forms, form).op == 0
}

// The same where the form's first step is done n times: done 0 times it is the form after it.
pub fn is_never(forms: &[u16], steps: usize, n: usize, form: usize) -> bool
    requires { form < table_most }
    ensures { result ≡ is_never (form_of forms.now steps n form) }
{
    if n != 0 {
        return is_none(forms, steps, form);
    }
    if steps == 0 {
        return true;
    }
    let r = forms::row_at(forms, form);
    if r.op == forms::SPELLINGS || r.op == forms::NODES {
        return is_none(forms, steps - 1, r.b);
    }
    r.op == 0
}
