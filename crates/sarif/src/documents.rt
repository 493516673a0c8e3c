//! A log as JSON.

ghost use Rattle.std.specs.Prelude.{◌≡◌, ◌∷◌, codes, [], IfOk, OnOk, map, option_map, string_bytes};
ghost use Rattle.std.specs.Str.Lossy.{utf8_lossy};
ghost use Rattle.serde_json.specs.Data.{array, member, no_members, object, put as with_member, string};
ghost use Rattle.serde_json.specs.View.{items_of, members_view, view};
ghost use Rattle.serde_json.specs.Written.{compact_text};
ghost use Rattle.sarif.specs.Documents as documents;
ghost use Rattle.sarif.specs.Documents.{finding_json, location_json, locations_json, log_json, message_json, physical_json, region_json, related_json, results_json, rule_json, run_json, tool_json};
ghost use Rattle.sarif.specs.Logs.{id_text};
ghost use Rattle.sarif.specs.LogViews.{finding_seen, id_seen, log_seen, place_seen, rule_seen};

use crate::logs::{Finding, Log, Place, Rule, RuleId};
use crate::uris::uri_of;
use serde_json::{Map, Value, json, put};
use std::alloc::{AllocError, Global};

/// Sets a member to a text.
fn put_text(
    members: &mut Map<String, Value>,
    alloc: Global,
    key: &str,
    text: &str,
) -> Result<(), AllocError>
    ensures { OnOk result (members_view members.new.entries ≡ with_member key.now (string text.now) (members_view members.old.entries)) }
{
    put(members, alloc, key, Value::try_from_str(alloc, text)?)
}

/// Sets a member to a rule's id.
fn put_id(
    members: &mut Map<String, Value>,
    alloc: Global,
    key: &str,
    id: &RuleId<'_>,
) -> Result<(), AllocError>
    ensures { OnOk result (members_view members.new.entries ≡ with_member key.now (string (id_text (id_seen id.now))) (members_view members.old.entries)) }
{
    put(members, alloc, key, Value::String(id.text(alloc)?))
}

/// Sets a member to an object that has one text.
fn put_object(
    members: &mut Map<String, Value>,
    alloc: Global,
    key: &str,
    name: &str,
    text: &str,
) -> Result<(), AllocError>
    ensures { OnOk result (members_view members.new.entries
        ≡ with_member key.now (object (member name.now (string text.now) no_members)) (members_view members.old.entries)) }
{
    put(members, alloc, key, json!(in alloc; {name: text})?)
}

/// A list of one.
fn single(alloc: Global, value: Value) -> Result<Value, AllocError>
    ensures { IfOk result (λ list. view list ≡ array (items_of (view value ∷ []))) }
{
    json!(in alloc; [value])
}

/// A line, and a column where there is one.
fn region_value(alloc: Global, place: Place) -> Result<Value, AllocError>
    ensures { IfOk result (λ value. view value ≡ region_json (place_seen place)) }
{
    match place.column {
        Some(column) => json!(in alloc; {"startColumn": column, "startLine": place.line}),
        None => json!(in alloc; {"startLine": place.line}),
    }
}

/// The file at a URI, and where in it.
fn physical_value(alloc: Global, uri: &str, place: Option<Place>) -> Result<Value, AllocError>
    ensures { IfOk result (λ value. view value ≡ physical_json uri.now (option_map place_seen place)) }
{
    let mut members = Map::new(alloc);
    put_object(&mut members, alloc, "artifactLocation", "uri", uri)?;
    let Some(place) = place else {
        return Ok(Value::Object(members));
    };
    put(&mut members, alloc, "region", region_value(alloc, place)?)?;
    Ok(Value::Object(members))
}

/// The same as a location.
fn location_value(alloc: Global, uri: &str, place: Option<Place>) -> Result<Value, AllocError>
    ensures { IfOk result (λ value. view value ≡ location_json uri.now (option_map place_seen place)) }
{
    let physical = physical_value(alloc, uri, place)?;
    json!(in alloc; {"physicalLocation": physical})
}

/// Further places.
fn related_value(alloc: Global, uri: &str, places: &[Place]) -> Result<Value, AllocError>
    ensures { IfOk result (λ value. view value ≡ related_json uri.now (map place_seen places.now)) }
{
    let mut values = Vec::new(alloc);
    for place in places {
        values.push(location_value(alloc, uri, Some(*place))?)?;
    }
    Ok(Value::Array(values))
}

/// The place of a rule with an id, counted from 0: of the first.
fn rule_place(rules: &[Rule<'_>], id: &RuleId<'_>) -> Option<usize>
    ensures { result ≡ documents.rule_place (map rule_seen rules.now) (id_seen id.now) }
{
    rules.iter().position(|rule| rule.id.is(id))
}

/// Sets where a finding is.
fn put_locations(
    members: &mut Map<String, Value>,
    alloc: Global,
    uri: &str,
    place: Option<Place>,
) -> Result<(), AllocError>
    ensures { OnOk result (members_view members.new.entries
        ≡ with_member (codes "locations") (locations_json uri.now (option_map place_seen place)) (members_view members.old.entries)) }
{
    let location = location_value(alloc, uri, place)?;
    put(members, alloc, "locations", single(alloc, location)?)
}

/// Sets the message of a finding.
fn put_told(
    members: &mut Map<String, Value>,
    alloc: Global,
    message: &[u8],
) -> Result<(), AllocError>
    ensures { OnOk result (members_view members.new.entries
        ≡ with_member (codes "message") (message_json (utf8_lossy message.now)) (members_view members.old.entries)) }
{
    let text = String::from_utf8_lossy(alloc, message)?;
    put_object(members, alloc, "message", "text", &text)
}

/// Sets further places of a finding.
fn put_related(
    members: &mut Map<String, Value>,
    alloc: Global,
    uri: &str,
    places: &[Place],
) -> Result<(), AllocError>
    ensures { OnOk result (members_view members.new.entries
        ≡ with_member (codes "relatedLocations") (related_json uri.now (map place_seen places.now)) (members_view members.old.entries)) }
{
    put(
        members,
        alloc,
        "relatedLocations",
        related_value(alloc, uri, places)?,
    )
}

/// A finding in the file at a URI.
fn finding_value(
    alloc: Global,
    uri: &str,
    rules: &[Rule<'_>],
    finding: &Finding<'_>,
) -> Result<Value, AllocError>
    ensures { IfOk result (λ value. view value ≡ finding_json uri.now (map rule_seen rules.now) (finding_seen finding.now)) }
{
    let mut members = Map::new(alloc);
    put_text(&mut members, alloc, "level", finding.level.name())?;
    put_locations(&mut members, alloc, uri, finding.place)?;
    put_told(&mut members, alloc, &finding.message)?;
    put_related(&mut members, alloc, uri, &finding.related)?;
    put_id(&mut members, alloc, "ruleId", &finding.rule)?;
    let Some(index) = rule_place(rules, &finding.rule) else {
        return Ok(Value::Object(members));
    };
    put(&mut members, alloc, "ruleIndex", Value::from(index))?;
    Ok(Value::Object(members))
}

/// The findings.
fn results_value(alloc: Global, uri: &str, log: &Log<'_>) -> Result<Value, AllocError>
    ensures { IfOk result (λ value. view value ≡ results_json uri.now (map rule_seen log.now.rules.items) (map finding_seen log.now.findings.items)) }
{
    let mut values = Vec::new(alloc);
    for finding in &log.findings {
        values.push(finding_value(alloc, uri, &log.rules, finding)?)?;
    }
    Ok(Value::Array(values))
}

/// A rule.
fn rule_value(alloc: Global, rule: &Rule<'_>) -> Result<Value, AllocError>
    ensures { IfOk result (λ value. view value ≡ rule_json (rule_seen rule.now)) }
{
    let mut members = Map::new(alloc);
    let level = rule.level.name();
    put_object(&mut members, alloc, "defaultConfiguration", "level", level)?;
    put_object(&mut members, alloc, "fullDescription", "text", rule.says)?;
    put_object(&mut members, alloc, "help", "text", rule.help)?;
    put_id(&mut members, alloc, "id", &rule.id)?;
    put_object(&mut members, alloc, "shortDescription", "text", rule.title)?;
    Ok(Value::Object(members))
}

/// The rules.
fn rules_value(alloc: Global, rules: &[Rule<'_>]) -> Result<Value, AllocError>
    ensures { IfOk result (λ value. view value ≡ array (items_of (map rule_json (map rule_seen rules.now)))) }
{
    let mut values = Vec::new(alloc);
    for rule in rules {
        values.push(rule_value(alloc, rule)?)?;
    }
    Ok(Value::Array(values))
}

/// The tool, with its rules.
fn tool_value(alloc: Global, rules: &[Rule<'_>]) -> Result<Value, AllocError>
    ensures { IfOk result (λ value. view value ≡ tool_json (map rule_seen rules.now)) }
{
    let mut members = Map::new(alloc);
    put_text(&mut members, alloc, "name", "capwhy")?;
    put(&mut members, alloc, "rules", rules_value(alloc, rules)?)?;
    json!(in alloc; {"driver": Value::Object(members)})
}

/// The run.
fn run_value(alloc: Global, log: &Log<'_>) -> Result<Value, AllocError>
    ensures { IfOk result (λ value. view value ≡ run_json (log_seen log.now)) }
{
    let uri = uri_of(alloc, log.file)?;
    let mut members = Map::new(alloc);
    put(
        &mut members,
        alloc,
        "results",
        results_value(alloc, &uri, log)?,
    )?;
    put(&mut members, alloc, "tool", tool_value(alloc, &log.rules)?)?;
    Ok(Value::Object(members))
}

/// The log.
fn log_value(alloc: Global, log: &Log<'_>) -> Result<Value, AllocError>
    ensures { IfOk result (λ value. view value ≡ log_json (log_seen log.now)) }
{
    let mut members = Map::new(alloc);
    put_text(
        &mut members,
        alloc,
        "$schema",
        "https://json.schemastore.org/sarif-2.1.0.json",
    )?;
    let run = run_value(alloc, log)?;
    put(&mut members, alloc, "runs", single(alloc, run)?)?;
    put_text(&mut members, alloc, "version", "2.1.0")?;
    Ok(Value::Object(members))
}

/// A log's text: JSON without spaces. Want of memory is the only error.
pub fn log_text(alloc: Global, log: &Log<'_>) -> Result<String, AllocError>
    ensures { IfOk result (λ text. string_bytes text ≡ compact_text (log_json (log_seen log.now))) }
{
    log_value(alloc, log)?.to_string(alloc)
}
