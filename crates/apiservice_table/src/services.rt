// The objects of rows, as they are served.
ghost use Rattle.std.specs.Prelude.{◌≡◌, ◌++◌, ◌∷◌, IfOk};
ghost use Rattle.std.specs.List.{flat_map};
ghost use Rattle.apiservice_rows.specs.Row.{Row};
ghost use Rattle.apiservice_table.specs.Services as spec;

use apiservice_rows::Row;
use front_base::{Bytes, NoMemory};
use std::alloc::{AllocError, Global};

// The objects of rows, with a comma before each.
fn push_more(out: &mut Vec<u8>, rows: &[Row]) -> Result<(), AllocError>
    ensures { IfOk result (λ _.
        out.new.items ≡ out.old.items ++ flat_map (λ (row : Row). 44 ∷ row.object) rows.now) }
{
    for row in rows {
        out.push(b',')?;
        out.extend_from_slice(row.object.as_slice())?;
    }
    Ok(())
}

fn push_objects(out: &mut Vec<u8>, rows: &[Row]) -> Result<(), AllocError>
    ensures { IfOk result (λ _. out.new.items ≡ out.old.items ++ spec.objects rows.now) }
{
    let Some((first, others)) = rows.split_first() else {
        return Ok(());
    };
    out.extend_from_slice(first.object.as_slice())?;
    push_more(out, others)
}

// The `APIServiceList` of rows.
#[tactic(auto, unfolding(crate::specs::Services::service_list_text))]
pub fn service_list(alloc: Global, rows: &[Row]) -> Result<Bytes, NoMemory>
    ensures { IfOk result (λ text. text ≡ spec.service_list_text rows.now) }
{
    let head =
        b"{\"kind\":\"APIServiceList\",\"apiVersion\":\"apiregistration.k8s.io/v1\",\"metadata\":{},\"items\":[";
    let mut text = head.to_vec(alloc)?;
    push_objects(&mut text, rows)?;
    text.extend_from_slice(b"]}")?;
    Ok(Bytes::new(text))
}
