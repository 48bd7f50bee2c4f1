// SPDX-License-Identifier: Apache-2.0
ghost use Rattle.std.specs.Prelude.{◌≡◌, OnOk, codes};
ghost use Rattle.serde_json.specs.View.{members_view};
ghost use Rattle.cedar_json_write.specs.Written.{action_json, all_of, apply_json, if_some, parent_json, put_all};

use crate::collections::write_items;
use crate::entities::put_shape;
use crate::fields::{Members, put_json, put_some, put_value};
use crate::names::put_notes;
use crate::to_json::ToJson;
use cedar_data::{Items, Mem};
use cedar_fragment::{ActionEntityUID, ActionType, ApplySpec, RawName};
use serde_json::Value;
use std::alloc::Global;

impl ToJson for ActionEntityUID<RawName> {
    ghost written = { parent_json };

    #[tactic(auto, using(crate::proofs::Building::both))]
    fn to_json_value(&self, alloc: Global) -> Mem<Value> {
        let mut members = Members::new(alloc);
        put_json(alloc, &mut members, "id", &self.id)?;
        if let Some(ty) = self.raw_ty() {
            put_json(alloc, &mut members, "type", ty)?;
        }
        Ok(Value::from(members))
    }
}

impl ToJson for ApplySpec<RawName> {
    ghost written = { apply_json };

    #[tactic(auto, using(crate::proofs::Building::both))]
    fn to_json_value(&self, alloc: Global) -> Mem<Value> {
        let mut members = Members::new(alloc);
        let resource_types = write_items(alloc, self.resource_types.as_slice())?;
        put_value(alloc, &mut members, "resourceTypes", resource_types)?;
        let principal_types = write_items(alloc, self.principal_types.as_slice())?;
        put_value(alloc, &mut members, "principalTypes", principal_types)?;
        put_shape(alloc, &mut members, "context", &self.context)?;
        Ok(Value::from(members))
    }
}

/// Puts the parents at the key `memberOf`, where the action says which they are.
fn put_parents(
    alloc: Global,
    members: &mut Members,
    parents: &Option<Items<ActionEntityUID<RawName>>>,
) -> Mem<()>
    ensures { OnOk result (members_view members.new.entries
        ≡ put_all (if_some (codes "memberOf") (all_of parent_json) parents.now)
        (members_view members.old.entries)) }
{
    match parents {
        Some(parents) => {
            let parents = write_items(alloc, parents.as_slice())?;
            put_value(alloc, members, "memberOf", parents)
        }
        None => Ok(()),
    }
}

impl ToJson for ActionType<RawName> {
    ghost written = { action_json };

    #[tactic(auto, using(crate::proofs::Building::both))]
    fn to_json_value(&self, alloc: Global) -> Mem<Value> {
        let mut members = Members::new(alloc);
        put_some(alloc, &mut members, "attributes", &self.attributes)?;
        put_some(alloc, &mut members, "appliesTo", &self.applies_to)?;
        put_parents(alloc, &mut members, &self.member_of)?;
        put_notes(alloc, &mut members, &self.annotations)?;
        Ok(Value::from(members))
    }
}
