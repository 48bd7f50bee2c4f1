// SPDX-License-Identifier: Apache-2.0
ghost use Rattle.cedar_json_write.specs.Written.{fragment_json, namespace_json};

use crate::collections::{put_map, write_map};
use crate::fields::{Members, put_value};
use crate::names::put_notes;
use crate::to_json::ToJson;
use cedar_data::Mem;
use cedar_fragment::{Fragment, NamespaceDefinition, RawName};
use serde_json::Value;
use std::alloc::Global;

impl ToJson for NamespaceDefinition<RawName> {
    ghost written = { namespace_json };

    #[tactic(auto, using(crate::proofs::Building::both))]
    fn to_json_value(&self, alloc: Global) -> Mem<Value> {
        let mut members = Members::new(alloc);
        put_map(alloc, &mut members, "commonTypes", &self.common_types)?;
        let entity_types = write_map(alloc, &self.entity_types)?;
        put_value(alloc, &mut members, "entityTypes", entity_types)?;
        let actions = write_map(alloc, &self.actions)?;
        put_value(alloc, &mut members, "actions", actions)?;
        put_notes(alloc, &mut members, &self.annotations)?;
        Ok(Value::from(members))
    }
}

impl ToJson for Fragment<RawName> {
    ghost written = { fragment_json };

    #[tactic(auto, using(crate::proofs::Building::both))]
    fn to_json_value(&self, alloc: Global) -> Mem<Value> {
        write_map(alloc, &self.0)
    }
}
